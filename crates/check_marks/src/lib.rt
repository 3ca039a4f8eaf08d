// The locals of an and-box marked, each with the position of the last and-box of a guard that it is local to, and unmarked.
#![tactic(auto)]

ghost use Rattle.std.specs.Prelude.{◌≡◌, ◌<◌};
ghost use Rattle.mem_words.specs.Words.{words};
ghost use Rattle.work_tables.specs.Tables.{Laid};
ghost use Rattle.check_roles.specs.Boxes.{newer};
ghost use Rattle.check_marks.specs.Marking.{Did, Undid};

// The position of a local where an and-box opens at `i`; it had `g`, and `l` is that of the guard's last and-box. One more each, and 0
// for none, as the tables keep them.
fn position(l: usize, i: usize, g: usize) -> usize
    requires { (i < 28672) × (g < 32768) }
    ensures { (result ≡ newer l i g) × (result < 32768) }
{
    if l == 0 {
        return i + 1;
    }
    if g == l {
        return i + 1;
    }
    g
}

// Marks the variables that the words from `at` on begin with, unless one is marked already.
pub fn mark(ws: &[u8], work: &mut [u8], at: usize, l: usize, i: usize) -> bool
    requires { Laid work.old × (i < 28672) }
    ensures { Did (words ws.now) work.old at l i work.new result }
{
    let n = mem_words::count(ws);
    for j in at..n {
        let w = mem_get::get(ws, j);
        let Some(x) = check_kinds::variable(w) else {
            return true;
        };
        let v = check_vartables::name_get(work, x.0);
        if v % 2 == 1 {
            return false;
        }
        let g = position(l, i, v / 2);
        check_vartables::name_put(work, x.0, 2 * g + 1);
    }
    true
}

// Unmarks the variables that the words from `at` on begin with.
pub fn unmark(ws: &[u8], work: &mut [u8], at: usize)
    requires { Laid work.old }
    ensures { Undid (words ws.now) work.old at work.new }
{
    let n = mem_words::count(ws);
    for j in at..n {
        let w = mem_get::get(ws, j);
        let Some(x) = check_kinds::variable(w) else {
            return;
        };
        let v = check_vartables::name_get(work, x.0);
        check_vartables::name_put(work, x.0, v / 2 * 2);
    }
}
