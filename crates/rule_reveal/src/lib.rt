// Rule 4 on lent words.
#![tactic(auto)]

ghost use Rattle.std.specs.Prelude.{◌+◌, ◌≤◌, length};
ghost use Rattle.mem_words.specs.Words.{words};
ghost use Rattle.rule_build.specs.Built.{Built};
ghost use Rattle.rule_effects.specs.Effects.{revealed, fresh_4, effect_4};

use mem_variables::Variable;

// The locals of the and-box close at `u`, the statement of the member at `i` ends at `s` and hides `n` variables.
fn reveal_at(
    ws: &[u8],
    i: usize,
    n: usize,
    next: usize,
    u: usize,
    s: usize,
    out: &mut [u8],
) -> usize
    requires { (i ≤ length (words ws.now)) × (s ≤ length (words ws.now)) × (next + n ≤ 65536) }
    ensures { Built (length (words out.old)) (revealed (words ws.now) i n next u s) result (words out.new) }
{
    let c = mem_words::count(ws);
    let k1 = rule_build::append_range(ws, 0, u, out, 0);
    let k2 = rule_frees::append_frees(Variable(next), n, out, k1);
    let k3 = rule_build::append_range(ws, u, i + 1, out, k2);
    let k4 = rule_fresh::append_fresh(ws, i + 3, s, Variable(next), n, out, k3);
    rule_build::append_range(ws, s + 1, c, out, k4)
}

// Rule 4 at the member at `i`: fresh variables from `next` on join the and-box, the statement takes its position.
pub fn reveal(ws: &[u8], i: usize, next: usize, out: &mut [u8]) -> usize
    requires { (i ≤ length (words ws.now)) × (next + fresh_4 (words ws.now) i ≤ 65536) }
    ensures { Built (length (words out.old)) (effect_4 (words ws.now) i next) result (words out.new) }
{
    let c = mem_words::count(ws);
    let n = rule_number::number_at(ws, i + 2);
    let x = rule_inbox::inbox_of(ws, i);
    let s = rule_close::end_of(ws, i + 1);
    reveal_at(ws, i, n, next, x.locals, s, out)
}
