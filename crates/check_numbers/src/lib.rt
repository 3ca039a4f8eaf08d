// Whether every variable in the words of a configuration has a number below the next fresh one.
#![tactic(auto)]

ghost use Rattle.std.specs.Prelude.{◌≡◌};
ghost use Rattle.mem_words.specs.Words.{words};
ghost use Rattle.check_words.specs.Frees.{word_below, numbers_passed};

use mem_words::Word;

// Whether the word is no variable, or one with a number below `n`.
fn below(n: usize, w: Word) -> bool
    ensures { result ≡ word_below n w }
{
    match w {
        Word::Free(x) => x < n,
        _ => true,
    }
}

// Whether `q` query variables and all variables of the words have numbers below `next`.
pub fn numbers(ws: &[u8], q: usize, next: usize) -> bool
    ensures { result ≡ numbers_passed q next (words ws.now) }
{
    if q > next {
        return false;
    }
    let n = mem_words::count(ws);
    for i in 0..n {
        let w = mem_get::get(ws, i);
        if !below(next, w) {
            return false;
        }
    }
    true
}
