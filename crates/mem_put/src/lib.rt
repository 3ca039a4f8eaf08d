// A word written.
#![tactic(auto)]

ghost use Rattle.mem_numbers.specs.Stored.{Stored};
ghost use Rattle.mem_words.specs.Words.{words, CanWrite};

use mem_words::Word;

// Writes `w` as the word at `i`.
pub fn put(b: &mut [u8], i: usize, w: Word)
    requires { CanWrite (words b.old) i w }
    ensures { Stored (words b.old) i w (words b.new) }
{
    let j = 3 * i;
    let k = j + 1;
    let l = k + 1;
    let c = mem_words::class_of(w);
    let v = mem_words::value_of(w);
    b[j] = (c % 256) as u8;
    b[k] = (v % 256) as u8;
    b[l] = (v / 256 % 256) as u8;
}
