// Whether the bindings of a table of classes run in a cycle: a search in depth over the applications, with marks and a stack in
// the working slice. The contracts are stated by `solve_explores`, at the tables of the slice.
#![tactic(auto)]

ghost use Rattle.solve_explores.specs.Search.{CanDrain, CanTest, Tested};
ghost use Rattle.work_tables.specs.Tables.{cells_of, pos_of, log_of, marks_of, stack_of, dones_of, Laid, Logged, Searched};

// Searches from every application that is not met yet.
fn sweep(w: &mut [u8], used: usize, a: usize) -> bool
    requires { Laid w.old × Logged used × CanDrain (log_of used w.old) (pos_of w.old) (cells_of w.old) (marks_of w.old) (stack_of w.old) (dones_of w.old) a 0 2 }
    ensures { Tested (log_of used w.old) (pos_of w.old) (cells_of w.old) result × Searched w.old w.new }
{
    let mut q = 2;
    for k in 0..a {
        if work_search::mark_get(w, k) == 0 {
            let Some(r) = work_explores::explore(w, used, a, q, k) else {
                return false;
            };
            q = r;
        }
    }
    true
}

// Whether the bindings of the table's classes run in no cycle. The marks, the stack and the counts are working room.
pub fn acyclic(w: &mut [u8], used: usize, a: usize) -> bool
    requires { Laid w.old × Logged used × CanTest (log_of used w.old) (pos_of w.old) (cells_of w.old) (marks_of w.old) (stack_of w.old) (dones_of w.old) a }
    ensures { Tested (log_of used w.old) (pos_of w.old) (cells_of w.old) result × Searched w.old w.new }
{
    work_search::clear(w, a);
    sweep(w, used, a)
}
