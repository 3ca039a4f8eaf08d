// What a goal holds, by positions.
#![tactic(auto)]

ghost use Rattle.std.specs.Prelude.{◌≡◌, ◌≤◌, length};
ghost use Rattle.mem_words.specs.Words.{words};
ghost use Rattle.rule_holds.specs.Holding.{within_at, holds_in, rewrites_in};

use rule_table::Rewrites;

// Whether the position `j` is at or inside the goal at `g`.
pub fn within(ws: &[u8], g: usize, j: usize) -> bool
    ensures { result ≡ within_at (words ws.now) g j }
{
    if j < g {
        return false; // before it
    }
    let e = rule_close::end_of(ws, g);
    if e < j {
        return false; // behind it
    }
    true
}

// Whether the goal at `g` is or holds the box that holds what is at `i`.
pub fn holds_box(ws: &[u8], g: usize, i: usize) -> bool
    requires { i ≤ length (words ws.now) }
    ensures { result ≡ holds_in (words ws.now) g i }
{
    let o = rule_around::opening_of(ws, i);
    within(ws, g, o)
}

// Whether a step at `i` of a rule that rewrites `w` rewrites the goal at `g` or anything inside it.
pub fn rewrites(ws: &[u8], g: usize, i: usize, w: Rewrites) -> bool
    requires { i ≤ length (words ws.now) }
    ensures { result ≡ rewrites_in w (words ws.now) g i }
{
    match w {
        Rewrites::Itself => within(ws, g, i),
        Rewrites::Holder => holds_box(ws, g, i),
    }
}
