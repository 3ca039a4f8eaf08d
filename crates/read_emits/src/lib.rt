// Words written one after another. A slot that may stay empty is the word `Bad`; `compact` drops the slots that did.
#![tactic(auto)]

ghost use Rattle.std.specs.Prelude.{◌≤◌, length};
ghost use Rattle.mem_words.specs.Words.{words, Small};
ghost use Rattle.read_emits.specs.TheirContracts.{EmitTo, EndsTo};

use mem_words::Word;

// The position behind what was written, or there was no room.
#[derive(Clone, Copy)]
pub enum Emitted {
    To(usize),
    Full,
}

// Writes `w` at `k` if there is room.
pub fn emit(out: &mut [u8], k: usize, w: Word) -> bool
    requires { Small w }
    ensures { EmitTo (words out.old) k w (words out.new) result }
{
    if k < mem_words::count(out) {
        mem_put::put(out, k, w);
        return true;
    }
    false
}

// Writes `c` words `End` from `k` on.
pub fn ends(out: &mut [u8], k: usize, c: usize) -> Emitted
    requires { k ≤ length (words out.old) }
    ensures { EndsTo (words out.old) k c (words out.new) result }
{
    for j in 0..c {
        if !emit(out, k + j, Word::End) {
            return Emitted::Full;
        }
    }
    Emitted::To(k + c)
}
