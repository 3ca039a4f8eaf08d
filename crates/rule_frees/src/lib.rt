// Fresh variables appended to words that are built in a lent slice.
#![tactic(auto)]

ghost use Rattle.std.specs.Prelude.{◌+◌, ◌≤◌, length};
ghost use Rattle.mem_words.specs.Words.{words};
ghost use Rattle.mem_copies.specs.Runs.{Copied};
ghost use Rattle.rule_build.specs.Built.{Appended};
ghost use Rattle.rule_effects.specs.Effects.{frees};

use mem_variables::Variable;
use mem_words::Word;

// Writes `n` variables from `next` on.
fn put_frees(next: Variable, n: usize, out: &mut [u8], at: usize)
    requires { (at + n ≤ length (words out.old)) × (next.0 + n ≤ 65536) }
    ensures { Copied (words out.old) at (frees next.0 n) n (words out.new) }
{
    for j in 0..n {
        mem_put::put(out, at + j, Word::Free(next.0 + j));
    }
}

// Appends `n` variables from `next` on.
pub fn append_frees(next: Variable, n: usize, out: &mut [u8], at: usize) -> usize
    requires { next.0 + n ≤ 65536 }
    ensures { Appended (words out.old) at (frees next.0 n) result (words out.new) }
{
    let cap = mem_words::count(out);
    if cap < at {
        return cap + 1; // no room
    }
    if cap - at < n {
        return cap + 1; // not enough
    }
    put_frees(next, n, out, at);
    at + n
}
