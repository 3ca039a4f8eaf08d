// Unification in the working slice: a binding is held against its class, and what joins took away is settled until nothing is
// left. The contracts are stated by `solve_tells`, at the tables of the slice.
#![tactic(auto)]

ghost use Rattle.solve_tells.specs.Steps.{CanHold, Holding, CanSettle, Settling};
ghost use Rattle.work_tables.specs.Tables.{cells_of, vars_of, olds_of, pos_of, log_of, Laid, Logged, Moved};

use mem_variables::Variable;
use solve_tells::Stop;

// Asks the application `k` of `x`: binds its class, or meets what it is bound to.
pub fn hold(w: &mut [u8], used: usize, n: usize, x: Variable, k: usize) -> Result<usize, Stop>
    requires { Laid w.old × Logged used × CanHold (log_of used w.old) (pos_of w.old) (cells_of w.old) (vars_of w.old) (olds_of w.old) n x.0 k }
    ensures { Holding (log_of used w.old) (pos_of w.old) (cells_of w.old) (vars_of w.old) (olds_of w.old) n x.0 k (cells_of w.new) (vars_of w.new) (olds_of w.new) result × Moved w.old w.new }
{
    let r = work_cells::find(w, x);
    let c = work_trail::cell_get(w, r.0);
    if c % 4 == 2 {
        let j = c / 256;
        if j == k {
            return Ok(n);
        }
        let p = work_tables::pos_get(w, k);
        let q = work_tables::pos_get(w, j);
        return work_meets::meet(w, used, n, p, q);
    }
    if !work_cells::roomy(w, n) {
        return Err(Stop::Full(n));
    }
    let m = n + 1;
    work_cells::save(w, n, r, 2 + c / 4 % 64 * 4 + k * 256);
    Ok(m)
}

// Asks again what the trail's entries from `from` on took away, until none is left.
pub fn settle(w: &mut [u8], used: usize, from: usize, n: usize) -> Result<usize, Stop>
    requires { Laid w.old × Logged used × CanSettle (log_of used w.old) (pos_of w.old) (cells_of w.old) (vars_of w.old) (olds_of w.old) from n }
    ensures { Settling (log_of used w.old) (pos_of w.old) (cells_of w.old) (vars_of w.old) (olds_of w.old) from n (cells_of w.new) (vars_of w.new) (olds_of w.new) result × Moved w.old w.new }
{
    let mut m = n;
    let mut i = from;
    // No range: the end moves, since what is held adds to the trail.
    while i < m {
        let x = work_trail::var_get(w, i);
        let c = work_trail::old_get(w, i);
        i += 1;
        if c % 4 == 2 {
            m = hold(w, used, m, Variable(x), c / 256)?;
        }
    }
    Ok(m)
}
