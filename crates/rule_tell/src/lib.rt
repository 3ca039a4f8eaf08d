// Rule 1 on lent words.
#![tactic(auto)]

ghost use Rattle.std.specs.Prelude.{◌≡◌, cond, ◌≤◌, length};
ghost use Rattle.mem_words.specs.Words.{words};
ghost use Rattle.rule_build.specs.Built.{Built};
ghost use Rattle.rule_effects.specs.Effects.{told, true_sort, begins_true, effect_1};

use mem_sorts::Sort;
use mem_words::Word;

fn is_true(s: Sort) -> bool
    ensures { result ≡ true_sort s }
{
    match s {
        Sort::Locals => false,
        Sort::Store => false,
        Sort::True => true,
        Sort::Fail => false,
        Sort::Eq => false,
        Sort::App => false,
        Sort::Call => false,
        Sort::Comp => false,
        Sort::Hide => false,
        Sort::Clause => false,
        Sort::AskWait => false,
        Sort::AskCond => false,
        Sort::AskCommit => false,
    }
}

// Whether `true` begins with a word.
fn starts_true(w: Word) -> bool
    ensures { result ≡ begins_true w }
{
    match w {
        Word::End => false,
        Word::Free(_) => false,
        Word::Level(_) => false,
        Word::Num(_) => false,
        Word::Place(_) => false,
        Word::Inner(s) => is_true(s),
        Word::Bad => false,
    }
}

// Up to where a constraint that begins with `w` goes to the store: up to `j`, its beginning, or up to `e`, its end.
fn told_up_to(w: Word, j: usize, e: usize) -> usize
    ensures { result ≡ cond (begins_true w) j e }
{
    if starts_true(w) { j } else { e }
}

// The member at `i` closes at `e`, the store of its and-box at `s`; the words up to `b` go there.
fn move_in(ws: &[u8], i: usize, s: usize, b: usize, e: usize, out: &mut [u8]) -> usize
    requires { (i ≤ length (words ws.now)) × (e ≤ length (words ws.now)) }
    ensures { Built (length (words out.old)) (told (words ws.now) i s b e) result (words out.new) }
{
    let n = mem_words::count(ws);
    let k = rule_build::append_range(ws, 0, s, out, 0);
    let l = rule_build::append_range(ws, i + 1, b, out, k);
    let m = rule_build::append_range(ws, s, i, out, l);
    rule_build::append_range(ws, e + 1, n, out, m)
}

// Rule 1 at the member at `i`: its constraint goes to the end of its and-box's store.
pub fn tell(ws: &[u8], i: usize, out: &mut [u8]) -> usize
    requires { i ≤ length (words ws.now) }
    ensures { Built (length (words out.old)) (effect_1 (words ws.now) i) result (words out.new) }
{
    let n = mem_words::count(ws);
    let x = rule_inbox::inbox_of(ws, i);
    let e = rule_close::end_of(ws, i);
    let w = rule_read::word_at(ws, i + 1);
    let b = told_up_to(w, i + 1, e);
    move_in(ws, i, x.store, b, e, out)
}
