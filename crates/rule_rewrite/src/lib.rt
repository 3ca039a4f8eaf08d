// A rule's effect on lent words, by the rule's number.
#![tactic(auto)]

ghost use Rattle.std.specs.Prelude.{◌+◌, ◌≤◌, length};
ghost use Rattle.mem_words.specs.Words.{words};
ghost use Rattle.rule_build.specs.Built.{Built};
ghost use Rattle.rule_hidden.specs.Counting.{Capped};
ghost use Rattle.rule_rewrite.specs.Rewriting.{effect_words, fresh_words, AnyBuilt};

// How many fresh variables rule `r` takes at `i`, or more than 65,536.
pub fn fresh_for(ws: &[u8], r: usize, i: usize) -> usize
    requires { i ≤ length (words ws.now) }
    ensures { Capped (fresh_words (words ws.now) r i) result }
{
    if r == 4 {
        return rule_number::number_at(ws, i + 2);
    }
    if r == 5 {
        return rule_hidden::hidden_in(ws, i + 2);
    }
    0
}

// Rules 1 to 5: what a statement becomes.
fn rewrite_statement(ws: &[u8], ps: &[u8], r: usize, i: usize, next: usize, out: &mut [u8]) -> usize
    requires { (i ≤ length (words ws.now)) × (next + fresh_words (words ws.now) r i ≤ 65536) × (1 ≤ r) × (r ≤ 5) }
    ensures { Built (length (words out.old)) (effect_words (words ws.now) (words ps.now) r i next) result (words out.new) }
{
    if r == 1 {
        return rule_tell::tell(ws, i, out);
    }
    if r == 2 {
        let b = rule_bodies::body_at(ws, ps, i);
        return rule_call::call(ws, ps, i, b, out);
    }
    if r == 3 {
        return rule_compose::compose(ws, i, out);
    }
    if r == 4 {
        return rule_reveal::reveal(ws, i, next, out);
    }
    rule_choose::choose(ws, i, next, out)
}

// Rules 6 to 10.
fn rewrite_box(ws: &[u8], r: usize, i: usize, out: &mut [u8]) -> usize
    requires { (i ≤ length (words ws.now)) × (6 ≤ r) × (r ≤ 10) }
    ensures { AnyBuilt (length (words out.old)) (words ws.now) r i result (words out.new) }
{
    if r == 6 {
        return rule_promote::promote(ws, i, out);
    }
    if r == 7 {
        return rule_condition::condition(ws, i, out);
    }
    if r == 8 {
        return rule_commit::commit(ws, i, out);
    }
    if r == 9 {
        return rule_failure::fail_box(ws, i, out);
    }
    rule_failure::fail_goal(ws, i, out)
}

// Rules 11 to 14.
fn rewrite_goal(ws: &[u8], r: usize, i: usize, out: &mut [u8]) -> usize
    requires { (i ≤ length (words ws.now)) × (11 ≤ r) × (r ≤ 14) }
    ensures { AnyBuilt (length (words out.old)) (words ws.now) r i result (words out.new) }
{
    if r == 11 {
        return rule_guard::fail_guard(ws, i, out);
    }
    if r == 12 {
        return rule_split::split(ws, i, out);
    }
    if r == 13 {
        return rule_distribute::distribute(ws, i, out);
    }
    rule_flatten::flatten(ws, i, out)
}

// The words that rule `r` leads to at `i`, written to `out`; `ps` are the program's words.
pub fn rewrite(ws: &[u8], ps: &[u8], r: usize, i: usize, next: usize, out: &mut [u8]) -> usize
    requires { (i ≤ length (words ws.now)) × (next + fresh_words (words ws.now) r i ≤ 65536) × (1 ≤ r) × (r ≤ 14) }
    ensures { Built (length (words out.old)) (effect_words (words ws.now) (words ps.now) r i next) result (words out.new) }
{
    if r < 6 {
        return rewrite_statement(ws, ps, r, i, next, out);
    }
    if r < 11 {
        return rewrite_box(ws, r, i, out);
    }
    rewrite_goal(ws, r, i, out)
}
