// Whether bindings run in a cycle where they did not at a mark: a search from the classes that the trail touches since the mark, and
// from no others. The contracts are stated by `solve_explores`, at the tables of the slice.
#![tactic(auto)]

ghost use Rattle.solve_explores.specs.Search.{Search};
ghost use Rattle.solve_explores.specs.Since.{CanVisit, Visiting, CanSince, TestedSince};
ghost use Rattle.work_tables.specs.Tables.{cells_of, vars_of, olds_of, pos_of, log_of, marks_of, stack_of, dones_of, Laid, Logged, Searched};

use mem_variables::Variable;

// Searches from the class of `x`, where it is bound and its application not met yet: the next rank; or none, for a cycle.
fn visit(w: &mut [u8], used: usize, a: usize, q: usize, x: usize) -> Option<usize>
    requires { Laid w.old × Logged used × CanVisit (log_of used w.old) (pos_of w.old) (cells_of w.old) (marks_of w.old) (stack_of w.old) (dones_of w.old) a q x }
    ensures { Visiting (log_of used w.old) (pos_of w.old) (cells_of w.old) (marks_of w.old) a x (marks_of w.new) (stack_of w.new) (dones_of w.new) result × Searched w.old w.new }
{
    let r = work_cells::find(w, Variable(x));
    let c = work_trail::cell_get(w, r.0);
    if c % 4 != 2 {
        return Some(q);
    }
    let k = c / 256;
    if work_search::mark_get(w, k) != 0 {
        return Some(q);
    }
    work_explores::explore(w, used, a, q, k)
}

// Searches from each class that the trail touches from `from` on up to `n`.
fn trace(w: &mut [u8], used: usize, n: usize, a: usize, from: usize) -> bool
    requires { Laid w.old × Logged used × CanSince (log_of used w.old) (pos_of w.old) (cells_of w.old) (vars_of w.old) (marks_of w.old) (stack_of w.old) (dones_of w.old) n a from × Search (log_of used w.old) (pos_of w.old) (cells_of w.old) (marks_of w.old) (stack_of w.old) (dones_of w.old) a 0 2 }
    ensures { TestedSince (log_of used w.old) (pos_of w.old) (cells_of w.old) (vars_of w.old) (olds_of w.old) n a from result × Searched w.old w.new }
{
    let mut q = 2;
    for i in from..n {
        let x = work_trail::var_get(w, i);
        let Some(r) = visit(w, used, a, q, x) else {
            return false;
        };
        q = r;
    }
    true
}

// Whether the bindings run in no cycle, if they ran in none at the mark `from`. The marks, the stack and the counts are working room.
pub fn acyclic_since(w: &mut [u8], used: usize, n: usize, a: usize, from: usize) -> bool
    requires { Laid w.old × Logged used × CanSince (log_of used w.old) (pos_of w.old) (cells_of w.old) (vars_of w.old) (marks_of w.old) (stack_of w.old) (dones_of w.old) n a from }
    ensures { TestedSince (log_of used w.old) (pos_of w.old) (cells_of w.old) (vars_of w.old) (olds_of w.old) n a from result × Searched w.old w.new }
{
    work_search::clear(w, a);
    trace(w, used, n, a, from)
}
