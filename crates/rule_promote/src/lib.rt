// Rule 6 on lent words.
#![tactic(auto)]

ghost use Rattle.std.specs.Prelude.{◌≤◌, length};
ghost use Rattle.mem_words.specs.Words.{words};
ghost use Rattle.rule_build.specs.Built.{Built};
ghost use Rattle.rule_effects.specs.Effects.{promoted, effect_6};

use mem_sorts::Kind;
use mem_words::Word;

// The and-box's locals close at `u` and its store at `s`, the guard's at `v` and `t`; the body stands from `b` up to `c`, and the
// choice-box at `i` closes at `e`.
fn lift(
    ws: &[u8],
    i: usize,
    u: usize,
    s: usize,
    v: usize,
    t: usize,
    b: usize,
    c: usize,
    e: usize,
    out: &mut [u8],
) -> usize
    requires { (i ≤ length (words ws.now)) × (v ≤ length (words ws.now)) }
    ensures { Built (length (words out.old)) (promoted (words ws.now) i u s v t b c e) result (words out.new) }
{
    let n = mem_words::count(ws);
    let k1 = rule_build::append_range(ws, 0, u, out, 0);
    let k2 = rule_build::append_range(ws, i + 4, v, out, k1);
    let k3 = rule_build::append_range(ws, u, s, out, k2);
    let k4 = rule_build::append_range(ws, v + 2, t, out, k3);
    let k5 = rule_build::append_range(ws, s, i, out, k4);
    let k6 = rule_word::append_word(Word::Place(Kind::Member), out, k5);
    let k7 = rule_build::append_range(ws, b, c, out, k6);
    rule_build::append_range(ws, e, n, out, k7)
}

// Rule 6 at the choice-box at `i`: its guard's locals and store join those of the and-box, its body takes its position.
pub fn promote(ws: &[u8], i: usize, out: &mut [u8]) -> usize
    requires { i ≤ length (words ws.now) }
    ensures { Built (length (words out.old)) (effect_6 (words ws.now) i) result (words out.new) }
{
    let n = mem_words::count(ws);
    let x = rule_inbox::inbox_of(ws, i);
    let v = rule_close::end_of(ws, i + 2 + 1);
    let t = rule_close::end_of(ws, v + 1);
    let g = rule_close::end_of(ws, i + 2);
    let c = rule_close::end_of(ws, g + 1);
    let e = rule_close::end_of(ws, i);
    lift(ws, i, x.locals, x.store, v, t, g + 1, c + 1, e, out)
}
