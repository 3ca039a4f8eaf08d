// An equation or an application is taken into the tables of the working slice, and settled. The contracts are stated by
// `solve_tells`, at the tables of the slice.
#![tactic(auto)]

ghost use Rattle.std.specs.Prelude.{◌≡◌, ◌+◌};
ghost use Rattle.constraint.proofs.FormSteps.{Holds};
ghost use Rattle.solve_fields.specs.Read.{tab_of};
ghost use Rattle.solve_tells.specs.Takes.{CanEquate, CanApply, Taking};
ghost use Rattle.work_tables.specs.Tables.{cells_of, vars_of, olds_of, pos_of, log_of, Laid, Logged, Moved};

use mem_variables::Variable;
use solve_tells::Stop;

// Tells x = y.
pub fn equate(w: &mut [u8], used: usize, n: usize, x: Variable, y: Variable) -> Result<usize, Stop>
    requires { Laid w.old × Logged used × CanEquate (log_of used w.old) (pos_of w.old) (cells_of w.old) (vars_of w.old) (olds_of w.old) n x.0 y.0 }
    ensures { Taking (log_of used w.old) (pos_of w.old) (cells_of w.old) (vars_of w.old) (olds_of w.old) n 0 (λ lab ρ. ρ x.0 ≡ ρ y.0) (cells_of w.new) (vars_of w.new) (olds_of w.new) result × Moved w.old w.new }
{
    if !work_cells::roomy(w, n) {
        return Err(Stop::Full(n));
    }
    let m = work_classes::join(w, n, x, y);
    work_unify::settle(w, used, n, m)
}

// Tells that `x` is the application `k`.
pub fn apply(w: &mut [u8], used: usize, n: usize, x: Variable, k: usize) -> Result<usize, Stop>
    requires { Laid w.old × Logged used × CanApply (log_of used w.old) (pos_of w.old) (cells_of w.old) (vars_of w.old) (olds_of w.old) n x.0 k }
    ensures { Taking (log_of used w.old) (pos_of w.old) (cells_of w.old) (vars_of w.old) (olds_of w.old) n (k + 1) (λ lab ρ. Holds ρ x.0 (tab_of lab (log_of used w.old) (pos_of w.old) k)) (cells_of w.new) (vars_of w.new) (olds_of w.new) result × Moved w.old w.new }
{
    let held = work_unify::hold(w, used, n, x, k)?;
    work_unify::settle(w, used, n, held)
}
