// One clause of lent words appended as a guarded goal.
#![tactic(auto)]

ghost use Rattle.std.specs.Prelude.{◌+◌, ◌≤◌, length};
ghost use Rattle.mem_words.specs.Words.{words};
ghost use Rattle.rule_build.specs.Built.{Appended};
ghost use Rattle.rule_effects.specs.Effects.{frees, guarded_one};

use mem_sorts::{Kind, Sort};
use mem_variables::Variable;
use mem_words::Word;

// Appends the clause at `j` with `n` fresh variables from `next` on: its guard stands up to `g`, its body up to `b`.
pub fn append_clause(
    ws: &[u8],
    j: usize,
    g: usize,
    b: usize,
    next: usize,
    n: usize,
    out: &mut [u8],
    at: usize,
) -> usize
    requires { (j ≤ length (words ws.now)) × (next + n ≤ 65536) }
    ensures { Appended (words out.old) at (guarded_one (words ws.now) j g b (frees next n)) result (words out.new) }
{
    let c = mem_words::count(ws);
    let k1 = rule_word::append_two(Word::Place(Kind::Guarded), Word::Place(Kind::And), out, at);
    let k2 = rule_word::append_word(Word::Inner(Sort::Locals), out, k1);
    let k3 = rule_frees::append_frees(Variable(next), n, out, k2);
    let k4 = rule_word::append_two(Word::End, Word::Inner(Sort::Store), out, k3);
    let k5 = rule_word::append_two(Word::End, Word::Place(Kind::Member), out, k4);
    let k6 = rule_fresh::append_fresh(ws, j + 2, g, Variable(next), n, out, k5);
    let k7 = rule_word::append_two(Word::End, Word::End, out, k6);
    let k8 = rule_fresh::append_fresh(ws, g, b, Variable(next), n, out, k7);
    rule_word::append_word(Word::End, out, k8)
}
