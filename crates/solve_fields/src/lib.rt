// Constraints as words: the word at a position, its variable and its number, and the one comparison of labels.
#![tactic(auto)]

ghost use Rattle.std.specs.Prelude.{◌≡◌, get_or};
ghost use Rattle.mem_numbers.specs.Decides.{Decides};
ghost use Rattle.mem_words.specs.Words.{words};
ghost use Rattle.solve_fields.specs.Read.{var_of, num_of, is_var};

use mem_words::Word;

// The word at `i`; past the end there is none.
pub fn peek(t: &[u8], i: usize) -> Word
    ensures { result ≡ get_or (words t.now) i Word.Bad }
{
    if i < mem_words::count(t) {
        mem_get::get(t, i)
    } else {
        Word::Bad
    }
}

// The variable of a word.
pub fn var_of(w: Word) -> usize
    ensures { result ≡ var_of w }
{
    match w {
        Word::Free(v) => v,
        _ => 0,
    }
}

// The number of a word.
pub fn num_of(w: Word) -> usize
    ensures { result ≡ num_of w }
{
    match w {
        Word::Num(v) => v,
        _ => 0,
    }
}

// Whether a word is a variable.
pub fn is_var(w: Word) -> bool
    ensures { result ≡ is_var w }
{
    matches!(w, Word::Free(_))
}

// The one comparison of labels, by their numbers.
pub fn same_label(f: usize, g: usize) -> bool
    ensures { Decides (f ≡ g) result }
{
    f == g
}
