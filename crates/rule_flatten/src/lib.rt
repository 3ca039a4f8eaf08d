// Rule 14 on lent words.
#![tactic(auto)]

ghost use Rattle.std.specs.Prelude.{◌≤◌, length};
ghost use Rattle.mem_words.specs.Words.{words};
ghost use Rattle.rule_build.specs.Built.{Built};
ghost use Rattle.rule_effects.specs.Effects.{effect_14};

// Rule 14 at the or-box at `i`: its members take its position.
pub fn flatten(ws: &[u8], i: usize, out: &mut [u8]) -> usize
    requires { i ≤ length (words ws.now) }
    ensures { Built (length (words out.old)) (effect_14 (words ws.now) i) result (words out.new) }
{
    let n = mem_words::count(ws);
    let e = rule_close::end_of(ws, i);
    let k = rule_build::append_range(ws, 0, i, out, 0);
    let l = rule_build::append_range(ws, i + 1, e, out, k);
    rule_build::append_range(ws, e + 1, n, out, l)
}
