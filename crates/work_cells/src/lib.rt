// Cells and their trail in one working slice: the contracts are stated by `solve_cells`, at the tables of the slice.
#![tactic(auto)]

ghost use Rattle.std.specs.Prelude.{◌≤◌, length};
ghost use Rattle.mem_numbers.specs.Numbers.{triples};
ghost use Rattle.mem_parts.specs.Parts.{cut};
ghost use Rattle.solve_cells.specs.Cells.{Found, CanFind};
ghost use Rattle.solve_cells.specs.Trail.{CanSave, CanUndo};
ghost use Rattle.solve_tells.specs.Steps.{Room};
ghost use Rattle.work_tables.specs.Tables.{cells_of, vars_of, olds_of, Laid};
ghost use Rattle.work_cells.specs.Saves.{SavedIn, Undone};

use mem_variables::Variable;

// As `solve_cells::find`, in a part of the slice.
fn find_in(w: &[u8], a: usize, e: usize, x: usize) -> usize
    requires { (a ≤ e) × (e ≤ length w.now) × CanFind (triples (cut a e w.now)) x }
    ensures { Found (triples (cut a e w.now)) x result }
{
    solve_cells::find(&w[a..e], x)
}

// The representative of `x`.
pub fn find(w: &[u8], x: Variable) -> Variable
    requires { Laid w.now × CanFind (cells_of w.now) x.0 }
    ensures { Found (cells_of w.now) x.0 result.0 }
{
    let r = find_in(w, 16384, 212992, x.0);
    Variable(r)
}

// Makes `c` the cell of `x`; the trail's entry `n` keeps what it was.
pub fn save(w: &mut [u8], n: usize, x: Variable, c: usize)
    requires { Laid w.old × CanSave (cells_of w.old) (vars_of w.old) (olds_of w.old) n x.0 c }
    ensures { SavedIn w.old n x.0 c w.new }
{
    let old = work_trail::cell_get(w, x.0);
    work_trail::var_put(w, n, x.0);
    work_trail::old_put(w, n, old);
    work_trail::cell_put(w, x.0, c);
}

// Takes the changes back that the trail has from `m` on up to `n`, the newest first.
pub fn undo(w: &mut [u8], n: usize, m: usize)
    requires { Laid w.old × CanUndo (cells_of w.old) (vars_of w.old) (olds_of w.old) n m }
    ensures { Undone w.old n m w.new }
{
    for i in (m..n).rev() {
        let x = work_trail::var_get(w, i);
        let o = work_trail::old_get(w, i);
        work_trail::cell_put(w, x, o);
    }
}

// Whether the trail has room for two more changes.
pub fn roomy(w: &[u8], n: usize) -> bool
    requires { Laid w.now × (n ≤ length (vars_of w.now)) }
    ensures { Room (vars_of w.now) (olds_of w.now) n result }
{
    if n < 8191 {
        return true;
    }
    false
}
