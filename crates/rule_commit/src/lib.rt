// Rule 8 on lent words.
#![tactic(auto)]

ghost use Rattle.std.specs.Prelude.{◌≤◌, length};
ghost use Rattle.mem_words.specs.Words.{words};
ghost use Rattle.rule_build.specs.Built.{Built};
ghost use Rattle.rule_effects.specs.Effects.{effect_8};

// Rule 8 at the guarded goal at `i`: all others go.
pub fn commit(ws: &[u8], i: usize, out: &mut [u8]) -> usize
    requires { i ≤ length (words ws.now) }
    ensures { Built (length (words out.old)) (effect_8 (words ws.now) i) result (words out.new) }
{
    let n = mem_words::count(ws);
    let e = rule_close::end_of(ws, i);
    let c = rule_around::opening_of(ws, i);
    let z = rule_close::end_of(ws, c);
    let k = rule_build::append_range(ws, 0, c + 1, out, 0);
    let l = rule_build::append_range(ws, i, e + 1, out, k);
    rule_build::append_range(ws, z, n, out, l)
}
