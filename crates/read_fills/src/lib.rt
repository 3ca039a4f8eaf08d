// Slots of hidings and choices filled.
#![tactic(auto)]

ghost use Rattle.std.specs.Prelude.{◌≡◌, ◌+◌, ◌≤◌, ◌<◌, length};
ghost use Rattle.mem_words.specs.Words.{words};
ghost use Rattle.read_pieces.specs.Slots.{HideFilled, ChoiceFilled, ask_of};

use mem_sorts::Sort;
use mem_words::Word;

// The slots of a hiding.
pub fn fill_hide(out: &mut [u8], k: usize, count: usize)
    requires { (k + 3 ≤ length (words out.old)) × (count < 65536) }
    ensures { HideFilled (words out.old) k count (words out.new) }
{
    mem_put::put(out, k, Word::Inner(Sort::Hide));
    mem_put::put(out, k + 1, Word::Num(count));
}

// What opens a choice whose operator is a token of this kind.
pub fn ask(kind: usize) -> Sort
    ensures { result ≡ ask_of kind }
{
    if kind == 11 {
        return Sort::AskWait;
    }
    if kind == 12 {
        return Sort::AskCond;
    }
    Sort::AskCommit
}

// The slots of a choice and of its first clause.
pub fn fill_choice(out: &mut [u8], k: usize, kind: usize, count: usize)
    requires { (k + 3 ≤ length (words out.old)) × (count < 65536) }
    ensures { ChoiceFilled (words out.old) k kind count (words out.new) }
{
    let s = ask(kind);
    mem_put::put(out, k, Word::Inner(s));
    mem_put::put(out, k + 1, Word::Inner(Sort::Clause));
    mem_put::put(out, k + 2, Word::Num(count));
}
