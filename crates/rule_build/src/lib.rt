// A range of lent words appended to those that are built in another slice.
#![tactic(auto)]

ghost use Rattle.std.specs.Prelude.{length, ◌+◌, ◌≤◌};
ghost use Rattle.mem_words.specs.Words.{words};
ghost use Rattle.mem_copies.specs.Runs.{run};
ghost use Rattle.rule_words.specs.Pieces.{cut};
ghost use Rattle.rule_build.specs.Built.{Appended};

// Appends the `m` words of `ws` from `s` on.
fn append_run(ws: &[u8], s: usize, m: usize, out: &mut [u8], at: usize) -> usize
    requires { s + m ≤ length (words ws.now) }
    ensures { Appended (words out.old) at (run s m (words ws.now)) result (words out.new) }
{
    let cap = mem_words::count(out);
    if cap < at {
        return cap + 1; // no room
    }
    if cap - at < m {
        return cap + 1; // not enough
    }
    mem_copies::copy(ws, s, m, out, at);
    at + m
}

// Appends the words of `ws` from `a` up to `b`, as far as there are any.
pub fn append_range(ws: &[u8], a: usize, b: usize, out: &mut [u8], at: usize) -> usize
    ensures { Appended (words out.old) at (cut a b (words ws.now)) result (words out.new) }
{
    let n = mem_words::count(ws);
    let e = b.min(n);
    let s = a.min(e);
    append_run(ws, s, e - s, out, at)
}
