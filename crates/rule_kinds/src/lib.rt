// The kind of place that stands at a position, as the table of rules tells them apart.
#![tactic(auto)]

ghost use Rattle.std.specs.Prelude.{◌≡◌, ◌+◌, ◌≤◌, length, get_or};
ghost use Rattle.mem_words.specs.Words.{words};
ghost use Rattle.mem_words.specs.declared.Word.TheVariants.{Bad};
ghost use Rattle.rule_kinds.specs.Kinds.{sort_takes, word_takes, or_takes, kind_takes, takes_in};

use mem_sorts::{Kind, Sort};
use mem_words::Word;

// The number of the kind of statement that a sort begins; 10 if it begins none.
fn by_sort(s: Sort) -> usize
    ensures { result ≡ sort_takes s }
{
    match s {
        Sort::Locals => 10,
        Sort::Store => 10,
        Sort::True => 0,
        Sort::Fail => 0,
        Sort::Eq => 0,
        Sort::App => 0,
        Sort::Call => 1,
        Sort::Comp => 2,
        Sort::Hide => 3,
        Sort::Clause => 10,
        Sort::AskWait => 4,
        Sort::AskCond => 4,
        Sort::AskCommit => 4,
    }
}

fn by_word(w: Word) -> usize
    ensures { result ≡ word_takes w }
{
    match w {
        Word::End => 10,
        Word::Free(_) => 10,
        Word::Level(_) => 10,
        Word::Num(_) => 10,
        Word::Place(_) => 10,
        Word::Inner(s) => by_sort(s),
        Word::Bad => 10,
    }
}

// An or-box at `i`: is it in an or-box?
fn of_or_box(ws: &[u8], i: usize) -> usize
    requires { i ≤ length (words ws.now) }
    ensures { result ≡ or_takes (words ws.now) i }
{
    if i == 0 {
        return 9; // the whole configuration
    }
    let a = rule_around::opening_of(ws, i);
    if rule_shapes::is_kind(ws, a, Kind::Or) {
        return 8;
    }
    9
}

// The statement of the member at `i`.
fn of_member(ws: &[u8], i: usize) -> usize
    requires { i ≤ length (words ws.now) }
    ensures { result ≡ word_takes (get_or (words ws.now) (i + 1) Bad) }
{
    let c = mem_words::count(ws);
    let w = rule_read::word_at(ws, i + 1);
    by_word(w)
}

fn of_place(ws: &[u8], i: usize, k: Kind) -> usize
    requires { i ≤ length (words ws.now) }
    ensures { result ≡ kind_takes k (words ws.now) i }
{
    match k {
        Kind::Or => of_or_box(ws, i),
        Kind::And => 7,
        Kind::Guarded => 6,
        Kind::Member => of_member(ws, i),
        Kind::Wait => 5,
        Kind::Cond => 5,
        Kind::Commit => 5,
    }
}

// The number of the kind of place at `i`; 10 if no place begins there.
pub fn kind(ws: &[u8], i: usize) -> usize
    requires { i ≤ length (words ws.now) }
    ensures { result ≡ takes_in (words ws.now) i }
{
    let w = rule_read::word_at(ws, i);
    match w {
        Word::End => 10,
        Word::Free(_) => 10,
        Word::Level(_) => 10,
        Word::Num(_) => 10,
        Word::Place(k) => of_place(ws, i, k),
        Word::Inner(_) => 10,
        Word::Bad => 10,
    }
}
