// Rule 2 on lent words.
#![tactic(auto)]

ghost use Rattle.std.specs.Prelude.{◌≡◌, ◌≤◌, length};
ghost use Rattle.mem_words.specs.Words.{words};
ghost use Rattle.rule_build.specs.Built.{Built};
ghost use Rattle.rule_effects.specs.Effects.{body_of, effect_2};

// Rule 2 at the member at `i`: the body that begins at `b` in the program's words `ps`, with arguments for parameters, takes its position.
pub fn call(ws: &[u8], ps: &[u8], i: usize, b: usize, out: &mut [u8]) -> usize
    requires { (i ≤ length (words ws.now)) × (b ≡ body_of (words ws.now) (words ps.now) i) }
    ensures { Built (length (words out.old)) (effect_2 (words ws.now) (words ps.now) i) result (words out.new) }
{
    let n = mem_words::count(ws);
    let c = mem_words::count(ps);
    let v = rule_close::end_of(ws, i + 1);
    let o = rule_close::end_of(ps, b);
    let k = rule_build::append_range(ws, 0, i + 1, out, 0);
    let l = rule_opened::append_opened(ps, b, o + 1, ws, i + 3, v, out, k);
    rule_build::append_range(ws, v + 1, n, out, l)
}
