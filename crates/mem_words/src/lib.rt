// Words in lent bytes: three bytes each, a class and a two-byte value with the low byte first, read as an enum by value.
#![tactic(auto)]

ghost use Rattle.std.specs.Prelude.{◌≡◌, ◌<◌};
ghost use Rattle.mem_numbers.specs.Numbers.{Counted};
ghost use Rattle.mem_words.specs.Words.{words, class_of, value_of};

use mem_sorts::{Kind, Sort};

// A word closes a bracket, is a variable, a bound variable's level or a number, or opens a bracket. Each of these has one form
// in bytes; all other bytes read as `Bad`.
#[derive(Clone, Copy, Debug, PartialEq, Eq)]
pub enum Word {
    End,
    Free(usize),
    Level(usize),
    Num(usize),
    Place(Kind),
    Inner(Sort),
    Bad,
}

// The class of a word.
pub fn class_of(w: Word) -> usize
    ensures { (result ≡ class_of w) × (result < 256) }
{
    match w {
        Word::End => 0,
        Word::Free(_) => 1,
        Word::Level(_) => 2,
        Word::Num(_) => 3,
        Word::Place(_) => 4,
        Word::Inner(_) => 5,
        Word::Bad => 6,
    }
}

// The value of a word.
pub fn value_of(w: Word) -> usize
    ensures { result ≡ value_of w }
{
    match w {
        Word::End => 0, // no value
        Word::Free(v) => v,
        Word::Level(v) => v,
        Word::Num(v) => v,
        Word::Place(k) => mem_sorts::kind_no(k),
        Word::Inner(s) => mem_sorts::sort_no(s),
        Word::Bad => 0,
    }
}

// How many whole words `b` holds.
pub fn count(b: &[u8]) -> usize
    ensures { Counted (words b.now) result }
{
    b.len() / 3
}
