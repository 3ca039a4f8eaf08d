// What is decided of a step before anything is written: its refusal, 10 to 13, or where its place stands.
#![tactic(auto)]

ghost use Rattle.std.specs.Prelude.{◌≡◌, ◌≤◌, length};
ghost use Rattle.akl.specs.Table.{rule_row};
ghost use Rattle.mem_words.specs.Words.{words};
ghost use Rattle.store_words.specs.Contexts.{place_at};
ghost use Rattle.rule_places.specs.Fingers.{Points};
ghost use Rattle.rule_solve.specs.Idle.{Idle};
ghost use Rattle.step_meant.specs.Deciding.{step_of};
ghost use Rattle.step_decide.specs.Decided.{row_takes, argument_there, CanDecide, CanTake, AsksStable, HasCondition, Decided};

use read_steps::Place;
use refusals::Refusal;
use rule_places::Finger;
use rule_table::Row;

// The number of the kind of place that rule `r` takes; 10 if there is no such rule.
fn kind_taken(r: usize) -> usize
    ensures { result ≡ row_takes (rule_row r) }
{
    match rule_table::row_of(r) {
        Row::Absent => 10,
        Row::Rule(k, m, v) => rule_table::takes_no(k),
    }
}

// Where the place that the argument `p` names stands; the number of words if there is none.
fn position(t: &[u8], p: usize) -> usize
    ensures { (result ≡ place_at (words t.now) p) × (result ≤ length (words t.now)) }
{
    rule_places::position_of(t, Place(p as u64))
}

// Whether the argument is a place in rule 12, else 0.
fn argument_fits(t: &[u8], r: usize, a: usize) -> bool
    ensures { result ≡ argument_there (words t.now) r a }
{
    if r == 12 {
        let g = position(t, a);
        return g < mem_words::count(t);
    }
    a == 0
}

// Whether the argument of rule 12 is the place of a stable goal that is or holds the box of what stands at `i`.
fn argument_stable(t: &[u8], d: &[u8], w: &mut [u8], r: usize, a: usize, i: usize) -> bool
    requires { Idle w.old × CanTake (words t.now) (words d.now) r a i }
    ensures { AsksStable (words t.now) (words d.now) r a i result × Idle w.new }
{
    if r != 12 {
        return true;
    }
    let g = position(t, a);
    if !rule_holds::holds_box(t, g, i) {
        return false;
    }
    step_stable::stable(t, d, w, g)
}

// Whether the rule applies at `i` with that argument.
fn has_condition(t: &[u8], d: &[u8], w: &mut [u8], r: usize, a: usize, i: usize) -> bool
    requires { Idle w.old × CanTake (words t.now) (words d.now) r a i }
    ensures { HasCondition (words t.now) (words d.now) r a i result × Idle w.new }
{
    if !step_applies::applies(t, d, w, r, i) {
        return false;
    }
    argument_stable(t, d, w, r, a, i)
}

// Rule `r` at the place `p` with the argument `a`, on a configuration's words `t` and a program's words `d`. The place is looked for from
// the finger on.
pub fn decide(
    t: &[u8],
    d: &[u8],
    w: &mut [u8],
    f: Finger,
    r: usize,
    p: Place,
    a: usize,
) -> Result<usize, Refusal>
    requires { Idle w.old × CanDecide (words t.now) (words d.now) × Points (words t.now) f }
    ensures { Decided (words t.now) (words d.now) (step_of r p.0 a) result × Idle w.new }
{
    let n = kind_taken(r);
    if n == 10 {
        return Err(Refusal::NoRule);
    }
    let i = rule_places::position_from(t, f, p);
    if i == mem_words::count(t) {
        return Err(Refusal::NoPlace); // nothing stands there
    }
    if !argument_fits(t, r, a) {
        return Err(Refusal::NoPlace); // the argument is not as it must be
    }
    if rule_kinds::kind(t, i) != n {
        return Err(Refusal::OtherKind);
    }
    if !has_condition(t, d, w, r, a, i) {
        return Err(Refusal::ConditionFalse);
    }
    Ok(i)
}
