// Rule 11 on lent words.
#![tactic(auto)]

ghost use Rattle.std.specs.Prelude.{◌≤◌, length};
ghost use Rattle.mem_words.specs.Words.{words};
ghost use Rattle.rule_build.specs.Built.{Built};
ghost use Rattle.rule_effects.specs.Effects.{effect_11};

// Rule 11 at the guarded goal at `i`: it goes.
pub fn fail_guard(ws: &[u8], i: usize, out: &mut [u8]) -> usize
    requires { i ≤ length (words ws.now) }
    ensures { Built (length (words out.old)) (effect_11 (words ws.now) i) result (words out.new) }
{
    let n = mem_words::count(ws);
    let e = rule_close::end_of(ws, i);
    let k = rule_build::append_range(ws, 0, i, out, 0);
    rule_build::append_range(ws, e + 1, n, out, k)
}
