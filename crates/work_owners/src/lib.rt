// Whether the variables that were unbound before a mark, locals aside, are unbound still and each alone in its class, in the
// working slice. The contracts are stated by `solve_quiet`, at the tables of the slice.
#![tactic(auto)]

ghost use Rattle.std.specs.Prelude.{List, ℕ, ◌+◌};
ghost use Rattle.solve_quiet.specs.Owners.{CanLookOne, CanOwn, Looking, CanLookAll};
ghost use Rattle.work_tables.specs.Tables.{cells_of, vars_of, olds_of, locals_of, Laid, Moved};

use mem_variables::Variable;
use solve_quiet::Unowned;

// Looks at the trail's entry `i`: a variable that was unbound and is no local is unbound still, and alone in its class.
fn own_one(w: &mut [u8], i: usize, m: usize) -> Result<usize, Unowned>
    requires { Laid w.old × CanLookOne (locals_of w.old) (cells_of w.old) (vars_of w.old) (olds_of w.old) i m }
    ensures { ((T X C : List ℕ) (from n : ℕ) → CanOwn (locals_of w.old) T X C from n (cells_of w.old) (vars_of w.old) (olds_of w.old) i m → Looking (locals_of w.old) T X C from n (cells_of w.new) (vars_of w.new) (olds_of w.new) (i + 1) result) × Moved w.old w.new }
{
    let x = work_trail::var_get(w, i);
    let c = work_trail::old_get(w, i);
    if c % 4 != 0 {
        return Ok(m);
    }
    if work_tables::local_get(w, x) != 0 {
        return Ok(m);
    }
    let r = work_cells::find(w, Variable(x));
    let d = work_trail::cell_get(w, r.0);
    if d % 4 == 2 {
        return Err(Unowned::Joint(m));
    }
    if r.0 == x {
        return Ok(m);
    }
    if work_tables::local_get(w, r.0) == 0 {
        return Err(Unowned::Joint(m));
    }
    if d % 4 == 3 {
        if d / 256 == x {
            return Ok(m);
        }
        return Err(Unowned::Joint(m));
    }
    if !work_cells::roomy(w, m) {
        return Err(Unowned::NoPlace(m));
    }
    let k = m + 1;
    work_cells::save(w, m, r, 3 + d / 4 % 64 * 4 + x * 256);
    Ok(k)
}

// Looks at the trail's entries from `from` on up to `n`.
pub fn own_all(w: &mut [u8], from: usize, n: usize) -> Result<usize, Unowned>
    requires { Laid w.old × CanLookAll (locals_of w.old) (cells_of w.old) (vars_of w.old) (olds_of w.old) from n }
    ensures { Looking (locals_of w.old) (cells_of w.old) (vars_of w.old) (olds_of w.old) from n (cells_of w.new) (vars_of w.new) (olds_of w.new) n result × Moved w.old w.new }
{
    let mut m = n;
    for i in from..n {
        m = own_one(w, i, m)?;
    }
    Ok(m)
}
