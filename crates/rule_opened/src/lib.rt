// A range of lent words appended with its outermost levels opened to variables that stand in others.
#![tactic(auto)]

ghost use Rattle.std.specs.Prelude.{map};
ghost use Rattle.mem_words.specs.Words.{words};
ghost use Rattle.mem_copies.specs.Open.{open_word};
ghost use Rattle.rule_words.specs.Pieces.{cut};
ghost use Rattle.rule_build.specs.Built.{Appended};
ghost use Rattle.rule_build.specs.Cuts.{Least};

fn least(a: usize, b: usize) -> usize
    ensures { Least a b result }
{
    if a < b { a } else { b }
}

// Appends the words of `ps` from `a` up to `b`, opened with those of `ws` from `v` up to `u`.
pub fn append_opened(
    ps: &[u8],
    a: usize,
    b: usize,
    ws: &[u8],
    v: usize,
    u: usize,
    out: &mut [u8],
    at: usize,
) -> usize
    ensures { Appended (words out.old) at (map (open_word (cut v u (words ws.now))) (cut a b (words ps.now))) result (words out.new) }
{
    let e = least(b, mem_words::count(ps));
    let s = least(a, e);
    let m = e - s;
    let g = least(u, mem_words::count(ws));
    let f = least(v, g);
    let k = g - f;
    let cap = mem_words::count(out);
    if cap < at {
        return cap + 1; // no room
    }
    if cap - at < m {
        return cap + 1; // not enough
    }
    mem_opened::copy_opened(ps, s, m, ws, f, k, out, at);
    at + m
}
