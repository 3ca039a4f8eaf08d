// The solver's verdicts over the tables of the working slice: whether what was told has a solution, and whether what was told since
// a mark is quiet for what was told before it. The contracts are stated by `solve_quiet`, at the tables of the slice.
#![tactic(auto)]

ghost use Rattle.solve_explores.specs.Search.{CanTest};
ghost use Rattle.solve_quiet.specs.Solver.{Solved, CanCalm, Calmed, Kept};
ghost use Rattle.work_tables.specs.Tables.{cells_of, vars_of, olds_of, pos_of, log_of, marks_of, stack_of, dones_of, locals_of, Laid, Logged, Searched, Tried};

use solve_quiet::{Calm, Unowned};

// Whether what was told has a solution.
pub fn satisfiable(w: &mut [u8], used: usize, a: usize) -> bool
    requires { Laid w.old × Logged used × CanTest (log_of used w.old) (pos_of w.old) (cells_of w.old) (marks_of w.old) (stack_of w.old) (dones_of w.old) a }
    ensures { Solved (log_of used w.old) (pos_of w.old) (cells_of w.old) result × Searched w.old w.new }
{
    work_cycles::acyclic(w, used, a)
}

// Whether what was told since the mark `from` is quiet, with the marked variables as locals, for what was told before it.
pub fn quiet(w: &mut [u8], used: usize, n: usize, a: usize, from: usize) -> Calm
    requires { Laid w.old × Logged used × CanCalm (log_of used w.old) (locals_of w.old) (pos_of w.old) (cells_of w.old) (vars_of w.old) (olds_of w.old) (marks_of w.old) (stack_of w.old) (dones_of w.old) n a from }
    ensures { Calmed (log_of used w.old) (locals_of w.old) (pos_of w.old) (cells_of w.old) (vars_of w.old) (olds_of w.old) n a from result × Kept (cells_of w.old) (vars_of w.old) (olds_of w.old) n (cells_of w.new) (vars_of w.new) (olds_of w.new) × Tried w.old w.new }
{
    if !work_since::acyclic_since(w, used, n, a, from) {
        return Calm::Loudly;
    }
    let o = work_owners::own_all(w, from, n);
    match o {
        Ok(m) => {
            work_cells::undo(w, m, n);
            Calm::Silent
        }
        Err(Unowned::Joint(m)) => {
            work_cells::undo(w, m, n);
            Calm::Loudly
        }
        Err(Unowned::NoPlace(m)) => {
            work_cells::undo(w, m, n);
            Calm::NoSpace
        }
    }
}
