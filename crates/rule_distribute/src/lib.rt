// Rule 13 on lent words.
#![tactic(auto)]

ghost use Rattle.std.specs.Prelude.{◌≤◌, length};
ghost use Rattle.mem_words.specs.Words.{words};
ghost use Rattle.rule_build.specs.Built.{Built};
ghost use Rattle.rule_effects.specs.Effects.{effect_13};

use mem_sorts::Kind;
use mem_words::Word;

// Rule 13 at the guarded goal at `i`: its first part, then an or-box of the rest, each with the body.
pub fn distribute(ws: &[u8], i: usize, out: &mut [u8]) -> usize
    requires { i ≤ length (words ws.now) }
    ensures { Built (length (words out.old)) (effect_13 (words ws.now) i) result (words out.new) }
{
    let n = mem_words::count(ws);
    let q = rule_close::end_of(ws, i + 2);
    let o = rule_close::end_of(ws, i + 1);
    let e = rule_close::end_of(ws, i);
    let k = rule_build::append_range(ws, 0, i + 1, out, 0);
    let l = rule_build::append_range(ws, i + 2, q + 1, out, k);
    let m = rule_build::append_range(ws, o + 1, e + 1, out, l);
    let p = rule_word::append_two(Word::Place(Kind::Guarded), Word::Place(Kind::Or), out, m);
    rule_build::append_range(ws, q + 1, n, out, p)
}
