// Single words of a configuration tested: whether a bracket ends there, which kind of place begins.
#![tactic(auto)]

ghost use Rattle.std.specs.Prelude.{◌≡◌};
ghost use Rattle.mem_words.specs.Words.{words};
ghost use Rattle.rule_words.specs.Scans.{closes};
ghost use Rattle.rule_effects.specs.Conditions.{ends_at, kind_in, kind_at};

use mem_sorts::Kind;
use mem_words::Word;

fn is_end(w: Word) -> bool
    ensures { result ≡ closes w 0 }
{
    match w {
        Word::End => true,
        Word::Free(_) => false,
        Word::Level(_) => false,
        Word::Num(_) => false,
        Word::Place(_) => false,
        Word::Inner(_) => false,
        Word::Bad => false,
    }
}

// Whether a bracket ends at `j`.
pub fn ends(ws: &[u8], j: usize) -> bool
    ensures { result ≡ ends_at (words ws.now) j }
{
    let w = rule_read::word_at(ws, j);
    is_end(w)
}

// The number of the kind of place that a word begins; 7 if it begins none.
fn kind_of_word(w: Word) -> usize
    ensures { result ≡ kind_in w }
{
    match w {
        Word::End => 7,
        Word::Free(_) => 7,
        Word::Level(_) => 7,
        Word::Num(_) => 7,
        Word::Place(k) => mem_sorts::kind_no(k),
        Word::Inner(_) => 7,
        Word::Bad => 7,
    }
}

// Whether a place of the kind `k` begins at `j`.
pub fn is_kind(ws: &[u8], j: usize, k: Kind) -> bool
    ensures { result ≡ kind_at (words ws.now) j k }
{
    let w = rule_read::word_at(ws, j);
    let x = kind_of_word(w);
    let y = mem_sorts::kind_no(k);
    if x == y {
        return true;
    }
    false // another
}
