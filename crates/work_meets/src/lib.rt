// Two applications are met in the working slice: one label, and as many arguments, joined pair by pair. The contract is stated by
// `solve_tells`, at the tables of the slice.
#![tactic(auto)]

ghost use Rattle.solve_tells.specs.Steps.{CanMeet, Meeting};
ghost use Rattle.work_tables.specs.Tables.{cells_of, vars_of, olds_of, log_of, Laid, Logged, Moved};

use mem_variables::Variable;
use solve_tells::Stop;

// Makes the applications at `p` and `q` equal: one label, and as many arguments, joined pair by pair.
pub fn meet(w: &mut [u8], used: usize, n: usize, p: usize, q: usize) -> Result<usize, Stop>
    requires { Laid w.old × Logged used × CanMeet (log_of used w.old) (cells_of w.old) (vars_of w.old) (olds_of w.old) n p q }
    ensures { Meeting (log_of used w.old) (cells_of w.old) (vars_of w.old) (olds_of w.old) n p q (cells_of w.new) (vars_of w.new) (olds_of w.new) result × Moved w.old w.new }
{
    let f = solve_fields::num_of(work_tables::peek(w, used, p + 2));
    let g = solve_fields::num_of(work_tables::peek(w, used, q + 2));
    if !solve_fields::same_label(f, g) {
        return Err(Stop::Clash(n));
    }
    let pa = p + 3;
    let qa = q + 3;
    let mut k = n;
    let mut i = 0;
    // A loop and no range: the first argument that is missing ends it.
    loop {
        let v = work_tables::peek(w, used, pa + i);
        let u = work_tables::peek(w, used, qa + i);
        if !solve_fields::is_var(v) {
            if solve_fields::is_var(u) {
                return Err(Stop::Clash(k));
            }
            return Ok(k);
        }
        if !solve_fields::is_var(u) {
            return Err(Stop::Clash(k));
        }
        if !work_cells::roomy(w, k) {
            return Err(Stop::Full(k));
        }
        let x = solve_fields::var_of(v);
        let y = solve_fields::var_of(u);
        k = work_classes::join(w, k, Variable(x), Variable(y));
        i += 1;
    }
}
