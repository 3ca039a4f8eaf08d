// Runs of words moved within their slice.
#![tactic(auto)]

ghost use Rattle.std.specs.Prelude.{drop};
ghost use Rattle.mem_words.specs.Words.{words};
ghost use Rattle.mem_copies.specs.Runs.{CanMove, Copied};

// Moves the `n` bytes from `from` on to `at`; the ranges may overlap.
fn move_bytes(b: &mut [u8], from: usize, n: usize, at: usize)
    requires { CanMove b.old from n at }
    ensures { Copied b.old at (drop from b.old) n b.new }
{
    b.copy_within(from..from + n, at);
}

// Moves the `n` words from `from` on to `at`; the ranges may overlap. Towards lower indices this closes a gap, towards higher ones it
// opens one.
pub fn move_words(b: &mut [u8], from: usize, n: usize, at: usize)
    requires { CanMove (words b.old) from n at }
    ensures { Copied (words b.old) at (drop from (words b.old)) n (words b.new) }
{
    move_bytes(b, 3 * from, 3 * n, 3 * at)
}
