// Empty slots closed in one pass.
#![tactic(auto)]

ghost use Rattle.std.specs.Prelude.{◌≡◌, ◌≤◌, length};
ghost use Rattle.mem_words.specs.Words.{words};
ghost use Rattle.read_emits.specs.TheirContracts.{is_bad, Compacted};

use mem_words::Word;

// Whether a word is an empty slot.
fn empty(w: Word) -> bool
    ensures { result ≡ is_bad w }
{
    matches!(w, Word::Bad)
}

// Drops the empty slots among the first `n` words, and hands back how many words are left.
pub fn compact(out: &mut [u8], n: usize) -> usize
    requires { n ≤ length (words out.old) }
    ensures { Compacted (words out.old) n (words out.new) result }
{
    let mut r = 0;
    for i in 0..n {
        let w = mem_get::get(out, i);
        if empty(w) {
            continue;
        }
        mem_put::put(out, r, w);
        r += 1;
    }
    r
}
