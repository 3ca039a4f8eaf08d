// A number read at any position.
#![tactic(auto)]

ghost use Rattle.std.specs.Prelude.{◌≡◌, ◌<◌, get_or};
ghost use Rattle.mem_words.specs.declared.Word.TheVariants.{Bad};
ghost use Rattle.mem_words.specs.Words.{words};
ghost use Rattle.rule_effects.specs.Effects.{number_in};

use mem_words::Word;

// The number that a word is; 0 if it is none.
fn number_of(w: Word) -> usize
    ensures { result ≡ number_in w }
{
    match w {
        Word::Num(v) => v,
        _ => 0,
    }
}

// The number that the word at `j` is.
pub fn number_at(ws: &[u8], j: usize) -> usize
    ensures { (result ≡ number_in (get_or (words ws.now) j Bad)) × (result < 65536) }
{
    let w = rule_read::word_at(ws, j);
    number_of(w)
}
