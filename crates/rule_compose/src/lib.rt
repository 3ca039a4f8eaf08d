// Rule 3 on lent words.
#![tactic(auto)]

ghost use Rattle.std.specs.Prelude.{◌≤◌, length};
ghost use Rattle.mem_words.specs.Words.{words};
ghost use Rattle.rule_build.specs.Built.{Built};
ghost use Rattle.rule_effects.specs.Effects.{effect_3};

use mem_sorts::Kind;
use mem_words::Word;

// Rule 3 at the member at `i`: its two parts become members in its position.
pub fn compose(ws: &[u8], i: usize, out: &mut [u8]) -> usize
    requires { i ≤ length (words ws.now) }
    ensures { Built (length (words out.old)) (effect_3 (words ws.now) i) result (words out.new) }
{
    let n = mem_words::count(ws);
    let a = rule_close::end_of(ws, i + 2);
    let b = rule_close::end_of(ws, a + 1);
    let k = rule_build::append_range(ws, 0, i + 1, out, 0);
    let l = rule_build::append_range(ws, i + 2, a + 1, out, k);
    let m = rule_word::append_two(Word::End, Word::Place(Kind::Member), out, l);
    let o = rule_build::append_range(ws, a + 1, b + 1, out, m);
    rule_build::append_range(ws, b + 1 + 1, n, out, o)
}
