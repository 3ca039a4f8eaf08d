// A word read.
#![tactic(auto)]

ghost use Rattle.std.specs.Prelude.{◌≡◌, ◌<◌, length};
ghost use Rattle.mem_words.specs.Words.{words, word, end_word, place_word, inner_word, Read};

use mem_sorts::{Kind, Sort};
use mem_words::Word;

// The word that closes a bracket has no value.
fn closing(v: usize) -> Word
    ensures { result ≡ end_word v }
{
    match v {
        0 => Word::End,
        _ => Word::Bad,
    }
}

// The word that opens a place, by the number of its kind.
fn placing(v: usize) -> Word
    ensures { result ≡ place_word v }
{
    match v {
        0 => Word::Place(Kind::Or),
        1 => Word::Place(Kind::And),
        2 => Word::Place(Kind::Guarded),
        3 => Word::Place(Kind::Member),
        4 => Word::Place(Kind::Wait),
        5 => Word::Place(Kind::Cond),
        6 => Word::Place(Kind::Commit),
        _ => Word::Bad,
    }
}

// The word that opens another bracket, by the number of its sort.
fn opening(v: usize) -> Word
    ensures { result ≡ inner_word v }
{
    match v {
        0 => Word::Inner(Sort::Locals),
        1 => Word::Inner(Sort::Store),
        2 => Word::Inner(Sort::True),
        3 => Word::Inner(Sort::Fail),
        4 => Word::Inner(Sort::Eq),
        5 => Word::Inner(Sort::App),
        6 => Word::Inner(Sort::Call),
        7 => Word::Inner(Sort::Comp),
        8 => Word::Inner(Sort::Hide),
        9 => Word::Inner(Sort::Clause),
        10 => Word::Inner(Sort::AskWait),
        11 => Word::Inner(Sort::AskCond),
        12 => Word::Inner(Sort::AskCommit),
        _ => Word::Bad,
    }
}

// The word of a class and a value.
fn make(k: usize, v: usize) -> Word
    ensures { result ≡ word k v }
{
    match k {
        0 => closing(v),
        1 => Word::Free(v),
        2 => Word::Level(v),
        3 => Word::Num(v),
        4 => placing(v),
        5 => opening(v),
        _ => Word::Bad,
    }
}

// The word at `i`.
pub fn get(b: &[u8], i: usize) -> Word
    requires { i < length (words b.now) }
    ensures { Read (words b.now) i result }
{
    let j = 3 * i;
    let k = j + 1;
    let l = k + 1;
    let c = usize::from(b[j]);
    let lo = usize::from(b[k]);
    let hi = usize::from(b[l]);
    make(c, lo + hi * 256)
}
