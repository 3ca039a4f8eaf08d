// Rule 12 on lent words.
#![tactic(auto)]

ghost use Rattle.std.specs.Prelude.{◌≤◌, length};
ghost use Rattle.mem_words.specs.Words.{words};
ghost use Rattle.rule_build.specs.Built.{Built};
ghost use Rattle.rule_effects.specs.Effects.{parted, effect_12};

use mem_sorts::Kind;
use mem_words::Word;

// The and-box stands from `a` up to `j`, the choice-box at `i` closes at `e`, its first guarded goal stands up to `q`.
fn part_box(ws: &[u8], i: usize, a: usize, q: usize, e: usize, j: usize, out: &mut [u8]) -> usize
    requires { i ≤ length (words ws.now) }
    ensures { Built (length (words out.old)) (parted (words ws.now) i a q e j) result (words out.new) }
{
    let n = mem_words::count(ws);
    let k1 = rule_build::append_range(ws, 0, a, out, 0);
    let k2 = rule_word::append_word(Word::Place(Kind::Or), out, k1);
    let k3 = rule_build::append_range(ws, a, q, out, k2);
    let k4 = rule_build::append_range(ws, e, j, out, k3);
    let k5 = rule_build::append_range(ws, a, i + 1, out, k4);
    let k6 = rule_build::append_range(ws, q, j, out, k5);
    let k7 = rule_word::append_word(Word::End, out, k6);
    rule_build::append_range(ws, j, n, out, k7)
}

// Rule 12 at the choice-box at `i`: its and-box becomes an or-box of two copies, with the first guarded goal alone and with the rest.
pub fn split(ws: &[u8], i: usize, out: &mut [u8]) -> usize
    requires { i ≤ length (words ws.now) }
    ensures { Built (length (words out.old)) (effect_12 (words ws.now) i) result (words out.new) }
{
    let n = mem_words::count(ws);
    let a = rule_around::opening_of(ws, i);
    let q = rule_close::end_of(ws, i + 1);
    let e = rule_close::end_of(ws, i);
    let j = rule_close::end_of(ws, a);
    part_box(ws, i, a, q + 1, e, j + 1, out)
}
