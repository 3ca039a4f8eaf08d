// Rules 9 and 10 on lent words: an and-box becomes failure.
#![tactic(auto)]

ghost use Rattle.std.specs.Prelude.{◌≤◌, length};
ghost use Rattle.mem_words.specs.Words.{words};
ghost use Rattle.rule_build.specs.Built.{Built};
ghost use Rattle.rule_effects.specs.Effects.{effect_9, effect_10};

use mem_sorts::Kind;
use mem_words::Word;

// Rule 9 at the and-box at `i`: it becomes failure.
pub fn fail_box(ws: &[u8], i: usize, out: &mut [u8]) -> usize
    requires { i ≤ length (words ws.now) }
    ensures { Built (length (words out.old)) (effect_9 (words ws.now) i) result (words out.new) }
{
    let n = mem_words::count(ws);
    let e = rule_close::end_of(ws, i);
    let k = rule_build::append_range(ws, 0, i, out, 0);
    let l = rule_word::append_two(Word::Place(Kind::Or), Word::End, out, k);
    rule_build::append_range(ws, e + 1, n, out, l)
}

// Rule 10 at the choice-box at `i`: its and-box becomes failure.
pub fn fail_goal(ws: &[u8], i: usize, out: &mut [u8]) -> usize
    requires { i ≤ length (words ws.now) }
    ensures { Built (length (words out.old)) (effect_10 (words ws.now) i) result (words out.new) }
{
    let a = rule_around::opening_of(ws, i);
    fail_box(ws, a, out)
}
