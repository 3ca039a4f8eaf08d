// A range of lent words appended with its outermost levels opened to fresh variables.
#![tactic(auto)]

ghost use Rattle.std.specs.Prelude.{map, ◌+◌, ◌≤◌, drop};
ghost use Rattle.mem_words.specs.Words.{words, Small};
ghost use Rattle.mem_copies.specs.Runs.{Copied};
ghost use Rattle.mem_copies.specs.Open.{open_word, Opened};
ghost use Rattle.rule_words.specs.Pieces.{cut};
ghost use Rattle.rule_build.specs.Built.{Appended};
ghost use Rattle.rule_effects.specs.Effects.{frees};
ghost use Rattle.rule_fresh.specs.Room.{Fits};

use mem_variables::Variable;
use mem_words::Word;

// A word opened with `n` variables from `next` on.
fn fresh_word(w: Word, next: Variable, n: usize) -> Word
    requires { (next.0 + n ≤ 65536) × Small w }
    ensures { Opened (frees next.0 n) w result }
{
    match w {
        Word::Level(l) => {
            if l < n {
                Word::Free(next.0 + l)
            } else {
                Word::Level(l - n)
            }
        }
        _ => w,
    }
}

// Writes the `m` words of `ws` from `s` on, opened.
fn copy_fresh(ws: &[u8], s: usize, m: usize, next: Variable, n: usize, out: &mut [u8], at: usize)
    requires { Fits (words ws.now) s m next.0 n (words out.old) at }
    ensures { Copied (words out.old) at (map (open_word (frees next.0 n)) (drop s (words ws.now))) m (words out.new) }
{
    for j in 0..m {
        let w = mem_get::get(ws, s + j);
        let o = fresh_word(w, next, n);
        mem_put::put(out, at + j, o);
    }
}

// Appends the words of `ws` from `a` up to `b`, opened with `n` variables from `next` on.
pub fn append_fresh(
    ws: &[u8],
    a: usize,
    b: usize,
    next: Variable,
    n: usize,
    out: &mut [u8],
    at: usize,
) -> usize
    requires { next.0 + n ≤ 65536 }
    ensures { Appended (words out.old) at (map (open_word (frees next.0 n)) (cut a b (words ws.now))) result (words out.new) }
{
    let e = b.min(mem_words::count(ws));
    let s = a.min(e);
    let m = e - s;
    let cap = mem_words::count(out);
    if cap < at {
        return cap + 1; // no room
    }
    if cap - at < m {
        return cap + 1; // not enough
    }
    copy_fresh(ws, s, m, next, n, out, at);
    at + m
}
