// Whether each variable in the words of a configuration is in scope: one pass with a stack of the open brackets, the locals in scope
// marked, and for each guarded goal the last and-box of its guard.
#![tactic(auto)]

ghost use Rattle.std.specs.Prelude.{◌≡◌, ◌≤◌, length};
ghost use Rattle.mem_words.specs.Words.{words, Read};
ghost use Rattle.work_tables.specs.Tables.{Laid};
ghost use Rattle.check_words.specs.Scope.{scope_passed};
ghost use Rattle.check_vartables.specs.Tables.{stack_of, links_of, names_of, Checked};
ghost use Rattle.check_roles.specs.Steps.{Holding};
ghost use Rattle.check_scope.specs.Next.{Ready, Next, Opening, bars};

use check_roles::Role;
use mem_sorts::Kind;
use mem_variables::Variable;
use mem_words::Word;

// The variable `x` is the word at `i`: how many brackets are open behind it, or none where a variable is not in scope. So for the
// functions below.
fn variable(ws: &[u8], work: &mut [u8], i: usize, k: usize, x: Variable) -> Option<usize>
    requires { Ready (words ws.now) work.old k i × Read (words ws.now) i (Word.Free x.0) }
    ensures { Next (words ws.now) work.old work.new i result }
{
    if check_uses::allowed(ws, work, k, x) {
        return Some(k);
    }
    None
}

// The innermost bracket ends at `i`.
fn close(ws: &[u8], work: &mut [u8], i: usize, k: usize) -> Option<usize>
    requires { Ready (words ws.now) work.old k i × Read (words ws.now) i Word.End }
    ensures { Next (words ws.now) work.old work.new i result }
{
    if k == 0 {
        return Some(0);
    }
    let p = check_vartables::stack_get(work, k - 1);
    let w = mem_get::get(ws, p);
    let o = check_roles::role_of(w);
    match o {
        Role::Clear => Some(k - 1),
        Role::Plain => Some(k - 1),
        Role::Boxed => {
            check_marks::unmark(ws, work, p + 2);
            Some(k - 1)
        }
        Role::Guarding => Some(k - 1),
    }
}

// An and-box opens at `i`.
fn open_box(ws: &[u8], work: &mut [u8], i: usize, k: usize) -> Option<usize>
    requires { Ready (words ws.now) work.old k i × Read (words ws.now) i (Word.Place Kind.And) }
    ensures { Next (words ws.now) work.old work.new i result }
{
    let t = check_uses::aim(ws, work, k);
    if t == 0 {
        if !check_marks::mark(ws, work, i + 2, 0, i) {
            return None;
        }
        check_vartables::stack_put(work, k, i);
        return Some(k + 1);
    }
    let l = check_vartables::link_get(work, t - 1);
    if !check_marks::mark(ws, work, i + 2, l, i) {
        return None;
    }
    check_vartables::link_put(work, t - 1, i + 1);
    check_vartables::stack_put(work, k, i);
    Some(k + 1)
}

// Whether a bracket may not open in the guard or body of `t`; `b` says whether it may in any.
fn barred(b: bool, t: usize) -> bool
    ensures { result ≡ bars b t }
{
    if b {
        return false;
    }
    t != 0
}

// Another bracket opens at `i`; `b` says whether it may in a guard or body.
fn open_other(ws: &[u8], work: &mut [u8], i: usize, k: usize, b: bool) -> Option<usize>
    requires { Ready (words ws.now) work.old k i }
    ensures { Opening (words ws.now) work.old k i b work.new result }
{
    let t = check_uses::aim(ws, work, k);
    if barred(b, t) {
        return None;
    }
    check_vartables::link_put(work, i, t);
    check_vartables::stack_put(work, k, i);
    Some(k + 1)
}

// A place opens at `i`.
fn open_place(ws: &[u8], work: &mut [u8], i: usize, k: usize, p: Kind) -> Option<usize>
    requires { Ready (words ws.now) work.old k i × Read (words ws.now) i (Word.Place p) }
    ensures { Next (words ws.now) work.old work.new i result }
{
    match p {
        Kind::Or => open_other(ws, work, i, k, true),
        Kind::And => open_box(ws, work, i, k),
        Kind::Guarded => open_other(ws, work, i, k, false),
        Kind::Member => open_other(ws, work, i, k, false),
        Kind::Wait => open_other(ws, work, i, k, false),
        Kind::Cond => open_other(ws, work, i, k, false),
        Kind::Commit => open_other(ws, work, i, k, false),
    }
}

// The word at `i` is `w`.
fn step(ws: &[u8], work: &mut [u8], i: usize, k: usize, w: Word) -> Option<usize>
    requires { Ready (words ws.now) work.old k i × Read (words ws.now) i w }
    ensures { Next (words ws.now) work.old work.new i result }
{
    match w {
        Word::End => close(ws, work, i, k),
        Word::Free(x) => variable(ws, work, i, k, Variable(x)),
        Word::Level(_) => Some(k),
        Word::Num(_) => Some(k),
        Word::Place(p) => open_place(ws, work, i, k, p),
        Word::Inner(_) => open_other(ws, work, i, k, true),
        Word::Bad => Some(k),
    }
}

// The words from the first on, with no number kept for any variable.
fn walk(ws: &[u8], work: &mut [u8]) -> bool
    requires { Laid work.old × (length (words ws.now) ≤ 28672) × Holding (words ws.now) (stack_of work.old) (links_of work.old) (names_of work.old) 0 0 }
    ensures { (result ≡ scope_passed (words ws.now)) × Checked work.old work.new }
{
    let n = mem_words::count(ws);
    let mut k = 0;
    for i in 0..n {
        let w = mem_get::get(ws, i);
        let Some(open) = step(ws, work, i, k, w) else {
            return false;
        };
        k = open;
    }
    true
}

// Whether each variable in the words is in scope.
pub fn scope(ws: &[u8], work: &mut [u8]) -> bool
    requires { Laid work.old × (length (words ws.now) ≤ 28672) }
    ensures { (result ≡ scope_passed (words ws.now)) × Checked work.old work.new }
{
    check_vartables::names_zero(work);
    walk(ws, work)
}
