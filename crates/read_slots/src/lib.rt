// Slots kept before what is in a bracket, and before a further clause.
#![tactic(auto)]

ghost use Rattle.std.specs.Prelude.{◌<◌};
ghost use Rattle.mem_words.specs.Words.{words};
ghost use Rattle.read_pieces.specs.Slots.{SlotsTo, ClauseTo};

use mem_sorts::Sort;
use mem_words::Word;

// Three empty slots at `k`, for what a bracket turns out to be.
pub fn slots(out: &mut [u8], k: usize) -> bool
    ensures { SlotsTo (words out.old) k (words out.new) result }
{
    if !read_emits::emit(out, k, Word::Bad) {
        return false;
    }
    if !read_emits::emit(out, k + 1, Word::Bad) {
        return false;
    }
    read_emits::emit(out, k + 2, Word::Bad)
}

// What opens a clause that is no first one.
pub fn open_clause(out: &mut [u8], k: usize, count: usize) -> bool
    requires { count < 65536 }
    ensures { ClauseTo (words out.old) k count (words out.new) result }
{
    if !read_emits::emit(out, k, Word::Inner(Sort::Clause)) {
        return false;
    }
    read_emits::emit(out, k + 1, Word::Num(count))
}
