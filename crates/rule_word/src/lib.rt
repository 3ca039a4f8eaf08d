// Single words appended to those that are built in a lent slice.
#![tactic(auto)]

ghost use Rattle.std.specs.Prelude.{[], ◌∷◌};
ghost use Rattle.mem_words.specs.Words.{words, Small};
ghost use Rattle.rule_build.specs.Built.{Appended};

use mem_words::Word;

// Appends one word.
pub fn append_word(w: Word, out: &mut [u8], at: usize) -> usize
    requires { Small w }
    ensures { Appended (words out.old) at (w ∷ []) result (words out.new) }
{
    let cap = mem_words::count(out);
    if cap <= at {
        return cap + 1;
    }
    mem_put::put(out, at, w);
    at + 1
}

// Appends two words.
pub fn append_two(v: Word, w: Word, out: &mut [u8], at: usize) -> usize
    requires { Small v × Small w }
    ensures { Appended (words out.old) at (v ∷ w ∷ []) result (words out.new) }
{
    let k = append_word(v, out, at);
    append_word(w, out, k)
}
