// What keeps a goal from being stable, at one place at or inside it that is no and-box: a determinate rule that rewrites the goal or
// something inside it.
#![tactic(auto)]

ghost use Rattle.std.specs.Prelude.{◌≡◌, ◌<◌, ◌≤◌, length};
ghost use Rattle.mem_words.specs.Words.{words};
ghost use Rattle.rule_solve.specs.Idle.{Idle};
ghost use Rattle.rule_effects.specs.Effects.{behind};
ghost use Rattle.rule_kinds.specs.Kinds.{takes_in};
ghost use Rattle.rule_applies.specs.Asking.{asks_6, asks_in};
ghost use Rattle.step_meant.specs.Asked.{Unrest, CanAsk};
ghost use Rattle.step_unrest.specs.Disturbing.{CanPlace, DisturbsAt, Disturbed, ByShape, is_always, moves_by};

use mem_sorts::Kind;
use rule_applies::Asks;
use rule_table::{Mode, Row};

// Whether the rule of number `r` is determinate, takes what is at `j`, a place of the kind `k`, rewrites the goal at `g` or something
// inside it, and applies.
fn disturbed_by(t: &[u8], d: &[u8], w: &mut [u8], g: usize, j: usize, k: usize, r: usize) -> bool
    requires { Idle w.old × CanPlace (words t.now) (words d.now) g j × (k ≡ takes_in (words t.now) j) }
    ensures { DisturbsAt (words t.now) (words d.now) g j r result × Idle w.new }
{
    let row = rule_table::row_of(r);
    match row {
        Row::Absent => false,
        Row::Rule(takes, mode, what) => match mode {
            Mode::Nondeterminate => false, // disturbs nothing
            Mode::Determinate => {
                let n = rule_table::takes_no(takes);
                if n != k {
                    return false; // another kind of place
                }
                if rule_holds::rewrites(t, g, j, what) {
                    return step_applies::applies(t, d, w, r, j);
                }
                false
            }
        },
    }
}

// Whether one of the fourteen rules does.
fn disturbed(t: &[u8], d: &[u8], w: &mut [u8], g: usize, j: usize, k: usize) -> bool
    requires { Idle w.old × CanPlace (words t.now) (words d.now) g j × (k ≡ takes_in (words t.now) j) }
    ensures { Disturbed (words t.now) (words d.now) g j result × Idle w.new }
{
    let mut r = 1;
    while r < 15 { // each of the fourteen
        if disturbed_by(t, d, w, g, j, k, r) {
            return true;
        }
        r += 1;
    }
    false
}

// Whether there is unrest at `j`, a position at or inside the goal at `g` of the configuration in `t`, whose program is in `d`, where no
// and-box begins. There is none where no place begins.
pub fn unrest_at(t: &[u8], d: &[u8], w: &mut [u8], g: usize, j: usize) -> bool
    requires { Idle w.old × CanAsk (words t.now) (words d.now) g × (g ≤ j) × (j < behind (words t.now) g) × (takes_in (words t.now) j ≡ 7 → ⊥) }
    ensures { Unrest (words t.now) (words d.now) g j result × Idle w.new }
{
    let k = rule_kinds::kind(t, j);
    if k == 10 {
        return false; // no place
    }
    disturbed(t, d, w, g, j, k)
}

// Whether rule 6 applies to the choice-box at `j` without a question to the solver. What is near is looked at first.
fn promoted(t: &[u8], j: usize) -> bool
    requires { j < length (words t.now) }
    ensures { result ≡ is_always (asks_6 (words t.now) j) }
{
    let c = mem_words::count(t);
    if rule_shapes::is_kind(t, j, Kind::Wait) {
        if rule_guards::solved(t, j + 2) {
            return rule_beside::has_one(t, j); // promoted if it is the only one
        }
        return false; // not solved
    }
    false // promoted only if its guard is quiet
}

// Whether the rule of number `r` applies, at the place at `j` of the kind that it takes, without a question to the solver. Rules 7 and
// 8 never do: they are not asked, because they would look for the choice-box around.
fn applies_at_once(t: &[u8], j: usize, r: usize) -> bool
    requires { j < length (words t.now) }
    ensures { result ≡ is_always (asks_in (words t.now) j r) }
{
    if r == 6 {
        return promoted(t, j);
    }
    if r == 7 {
        return false; // condition
    }
    if r == 8 {
        return false; // commitment
    }
    match rule_applies::asks_at(t, r, j) {
        Asks::Never => false,
        Asks::Always => true,
        Asks::Quiet(q) => false, // asked by others
        Asks::Satisfiable(q) => false,
    }
}

// Whether the rule of number `r` is determinate, takes what is at `j`, a place of the kind `k`, and applies without a question to the
// solver.
fn moved_by(t: &[u8], j: usize, k: usize, r: usize) -> bool
    requires { (j < length (words t.now)) × (k ≡ takes_in (words t.now) j) }
    ensures { result ≡ moves_by (words t.now) j r }
{
    let row = rule_table::row_of(r);
    match row {
        Row::Absent => false,
        Row::Rule(takes, mode, what) => match mode {
            Mode::Nondeterminate => false, // moves nothing
            Mode::Determinate => {
                let n = rule_table::takes_no(takes);
                if n != k {
                    return false; // taken elsewhere
                }
                applies_at_once(t, j, r)
            }
        },
    }
}

// Whether a determinate rule takes the place at `j` of the configuration in `t` and applies, as far as the shape decides it. It then
// disturbs every goal that the place is inside of. And-boxes, and guards that must be quiet, are left to others.
pub fn moved_at(t: &[u8], j: usize) -> bool
    requires { j < length (words t.now) }
    ensures { ByShape (words t.now) j result }
{
    let k = rule_kinds::kind(t, j);
    if k == 10 {
        return false; // none begins there
    }
    if k == 7 {
        return false; // an and-box
    }
    let mut r = 1; // the first
    while r < 15 { // rules 1 to 14
        if moved_by(t, j, k, r) {
            return true; // moved
        }
        r += 1;
    }
    false // none moves it
}
