// The state of a configuration, how many answers it has, and where they stand in its words.
#![tactic(auto)]

ghost use Rattle.mem_words.specs.Words.{words};
ghost use Rattle.work_tables.specs.Tables.{Laid};
ghost use Rattle.rule_solve.specs.Idle.{Idle};
ghost use Rattle.answer_boxes.specs.Asked.{MeantSome, GoalAt, AnswerAt, CountIs, Found, StateIs};

use mem_sorts::Kind;

// Whether the goal at `j` is an answer, where nothing but or-boxes is around it.
fn answer_at(t: &[u8], w: &mut [u8], j: usize) -> bool
    requires { Idle w.old × GoalAt (words t.now) j }
    ensures { AnswerAt (words t.now) j result × Idle w.new }
{
    if rule_guards::solved(t, j) {
        return rule_solve::sat_at(t, w, j);
    }
    false // not solved
}

// How many answers the configuration has.
pub fn count(t: &[u8], w: &mut [u8]) -> usize
    requires { Laid w.old × MeantSome (words t.now) }
    ensures { CountIs (words t.now) result × Laid w.new }
{
    rule_solve::ready(w);
    let n = mem_words::count(t);
    let mut j = 1;
    let mut c = 0;
    while j < n {
        if rule_shapes::is_kind(t, j, Kind::And) {
            let e = rule_close::end_of(t, j);
            if answer_at(t, w, j) {
                c += 1;
                j = e + 1;
            } else {
                j = e + 1; // no answer
            }
        } else {
            j += 1; // into an or-box, or out of one
        }
    }
    c
}

// Where the answer of the number `n`, counted from 1, stands; the number of words if there is none.
pub fn find(t: &[u8], w: &mut [u8], n: usize) -> usize
    requires { Laid w.old × MeantSome (words t.now) }
    ensures { Found (words t.now) n result × Laid w.new }
{
    let m = mem_words::count(t);
    if n == 0 {
        return m;
    }
    rule_solve::ready(w);
    let mut j = 1;
    let mut k = n;
    while j < m {
        if rule_shapes::is_kind(t, j, Kind::And) {
            let e = rule_close::end_of(t, j);
            if answer_at(t, w, j) {
                if k == 1 {
                    return j;
                }
                k -= 1;
                j = e + 1;
            } else {
                j = e + 1; // no answer
            }
        } else {
            j += 1; // into an or-box, or out of one
        }
    }
    m
}

// The state of the configuration: 0 failed, 1 final, 2 open.
pub fn state(t: &[u8], w: &mut [u8]) -> usize
    requires { Laid w.old × MeantSome (words t.now) }
    ensures { StateIs (words t.now) result × Laid w.new }
{
    let n = mem_words::count(t);
    if rule_shapes::ends(t, 1) {
        return 0; // empty
    }
    rule_solve::ready(w);
    let mut j = 1;
    while j < n {
        if rule_shapes::ends(t, j) {
            return 1; // every member
        }
        let e = rule_close::end_of(t, j);
        if answer_at(t, w, j) {
            j = e + 1;
        } else {
            return 2; // not this one
        }
    }
    1
}
