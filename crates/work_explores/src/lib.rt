// The search for a cycle from one application in the working slice, depth first, with a stack. The contracts are stated by
// `solve_explores`, at the tables of the slice. A mark is a number, as the table holds it: 0 for an application that was not met, 1 for
// one on the stack, else the rank of one that is done.
#![tactic(auto)]

ghost use Rattle.std.specs.Prelude.{◌≤◌, length};
ghost use Rattle.mem_numbers.specs.Numbers.{triples};
ghost use Rattle.mem_words.specs.Words.{words};
ghost use Rattle.mem_parts.specs.Parts.{cut};
ghost use Rattle.solve_explores.specs.Search.{ChildAt, CanLook, CanPlace, Placed, CanDrain, Draining, CanExplore, Exploring};
ghost use Rattle.work_tables.specs.Tables.{cells_of, pos_of, log_of, marks_of, stack_of, dones_of, Laid, Logged, Searched};
ghost use Rattle.work_explores.specs.Passing.{CanPass, Passed};

use solve_explores::Child;

// As `solve_explores::look`, in parts of the slice.
fn look_in(w: &[u8], a: usize, e: usize, s: usize, f: usize, c: usize) -> Child
    requires { (a ≤ e) × (e ≤ length w.now) × (s ≤ f) × (f ≤ length w.now) × CanLook (words (cut a e w.now)) (triples (cut s f w.now)) }
    ensures { ChildAt (words (cut a e w.now)) (triples (cut s f w.now)) c result }
{
    solve_explores::look(&w[a..e], &w[s..f], c)
}

// What the argument at `c` leads to.
pub fn look(w: &[u8], used: usize, c: usize) -> Child
    requires { Laid w.now × Logged used × CanLook (log_of used w.now) (cells_of w.now) }
    ensures { ChildAt (log_of used w.now) (cells_of w.now) c result }
{
    let e = 262144 + 3 * used;
    look_in(w, 262144, e, 16384, 212992, c)
}

// Puts the application `j` onto the stack of height `h`.
fn place(w: &mut [u8], h: usize, j: usize)
    requires { Laid w.old × CanPlace (marks_of w.old) (stack_of w.old) (dones_of w.old) h j }
    ensures { Placed (marks_of w.old) (stack_of w.old) (dones_of w.old) h j (marks_of w.new) (stack_of w.new) (dones_of w.new) × Searched w.old w.new }
{
    work_search::mark_put(w, j, 1);
    work_search::stack_put(w, h, j);
    work_search::done_put(w, h, 0);
}

// Behind an application that left the stack: the argument that led to it is passed, if the stack, of height `h`, is not empty.
fn pass(w: &mut [u8], h: usize)
    requires { CanPass w.old h }
    ensures { Passed w.old h w.new }
{
    if h == 0 {
        return;
    }
    let i = work_search::done_get(w, h - 1);
    work_search::done_put(w, h - 1, i + 1);
}

// Goes on with a search until its stack is empty: the next rank; or none, for a cycle.
fn drain(w: &mut [u8], used: usize, a: usize, n: usize, q: usize) -> Option<usize>
    requires { Laid w.old × Logged used × CanDrain (log_of used w.old) (pos_of w.old) (cells_of w.old) (marks_of w.old) (stack_of w.old) (dones_of w.old) a n q }
    ensures { Draining (log_of used w.old) (pos_of w.old) (cells_of w.old) (marks_of w.old) a (marks_of w.new) (stack_of w.new) (dones_of w.new) result × Searched w.old w.new }
{
    let mut h = n;
    let mut clock = q;
    while 0 < h {
        let top = h - 1;
        let j = work_search::stack_get(w, top);
        let i = work_search::done_get(w, top);
        let p = work_tables::pos_get(w, j);
        let d = look(w, used, p + 3 + i);
        match d {
            Child::Last => {
                work_search::mark_put(w, j, clock);
                clock += 1;
                pass(w, top);
                h = top;
            }
            Child::Open => {
                work_search::done_put(w, top, i + 1);
            }
            Child::Bound(b) => {
                let m = work_search::mark_get(w, b);
                if m == 0 {
                    place(w, h, b);
                    h += 1;
                } else {
                    if m == 1 {
                        return None;
                    }
                    work_search::done_put(w, top, i + 1);
                }
            }
        }
    }
    Some(clock)
}

// Searches from the application `k`, which is not met yet: the next rank; or none, for a cycle.
pub fn explore(w: &mut [u8], used: usize, a: usize, q: usize, k: usize) -> Option<usize>
    requires { Laid w.old × Logged used × CanExplore (log_of used w.old) (pos_of w.old) (cells_of w.old) (marks_of w.old) (stack_of w.old) (dones_of w.old) a q k }
    ensures { Exploring (log_of used w.old) (pos_of w.old) (cells_of w.old) (marks_of w.old) a k (marks_of w.new) (stack_of w.new) (dones_of w.new) result × Searched w.old w.new }
{
    place(w, 0, k);
    drain(w, used, a, 1, q)
}
