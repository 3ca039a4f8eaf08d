// The solver's own copy of what is told: words of the store are appended to the log of the working slice, and three words that
// end every constraint begun there.
#![tactic(auto)]

ghost use Rattle.std.specs.Prelude.{◌≤◌, length};
ghost use Rattle.mem_words.specs.Words.{words};
ghost use Rattle.mem_copies.specs.Runs.{CanCopy};
ghost use Rattle.mem_parts.specs.Parts.{cut};
ghost use Rattle.work_log.specs.Logs.{CopiedIn, CanAppend, Appended};

// Copies the `n` words of `t` from `from` on to the part.
fn copy_in(t: &[u8], w: &mut [u8], from: usize, n: usize, a: usize, e: usize)
    requires { (a ≤ e) × (e ≤ length w.old) × CanCopy (words t.now) from n (words (cut a e w.old)) 0 }
    ensures { CopiedIn a e (words t.now) from n w.old w.new }
{
    mem_copies::copy(t, from, n, &mut w[a..e], 0)
}

// Appends the `n` words of `t` from `from` on to the log, which has `used` words.
pub fn append(t: &[u8], w: &mut [u8], used: usize, from: usize, n: usize)
    requires { CanAppend (words t.now) w.old used from n }
    ensures { Appended (words t.now) w.old used from n w.new }
{
    let a = 262144 + 3 * used;
    let b = a + 3 * n;
    let e = b + 9;
    copy_in(t, w, from, n, a, b);
    mem_parts::zero(w, b, e);
}
