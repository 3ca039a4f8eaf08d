// Whether a rule asks of a solved guard if it is quiet.
#![tactic(auto)]

ghost use Rattle.std.specs.Prelude.{◌≡◌, true, ◌+◌, ◌<◌, ◌≤◌, length};
ghost use Rattle.mem_words.specs.Words.{words};
ghost use Rattle.rule_words.specs.Scans.{around};
ghost use Rattle.rule_effects.specs.Conditions.{solved_at};
ghost use Rattle.step_waits.specs.Waits.{CanWait, IsSole, Operates, IsBeside, IsWaiting};

use mem_sorts::Kind;

// Whether the solved guard at `j` is the only one of a choice-box inside the goal at `g`, whose operator is not `?`.
fn sole(t: &[u8], g: usize, j: usize) -> bool
    requires { (g ≤ j) × (j < length (words t.now)) × (solved_at (words t.now) j ≡ true) }
    ensures { IsSole (words t.now) g j result }
{
    let n = mem_words::count(t);
    if j < g + 3 {
        return false; // the choice-box is not inside the goal
    }
    let c = j - 2;
    if rule_shapes::is_kind(t, c, Kind::Cond) {
        return rule_beside::has_one(t, c); // `->`
    }
    if rule_shapes::is_kind(t, c, Kind::Commit) {
        return rule_beside::has_one(t, c); // `|`
    }
    false
}

// Whether the guarded goal at `i`, solved, in the choice-box at `c`, has another to its right, or for `|` to its left.
fn operator(t: &[u8], c: usize, i: usize) -> bool
    requires { (c ≡ around (words t.now) i) × (i + 1 < length (words t.now)) × (solved_at (words t.now) (i + 1) ≡ true) × (c ≤ i) }
    ensures { Operates (words t.now) i result }
{
    if rule_shapes::is_kind(t, c, Kind::Cond) {
        return rule_beside::has_right(t, i); // `->`
    }
    if rule_shapes::is_kind(t, c, Kind::Commit) {
        if c + 1 == i {
            return rule_beside::has_right(t, i); // the first of `|`
        }
        return true; // a later one of `|`
    }
    false
}

// Whether rule 7 or 8 asks for the solved guard at `j` at a guarded goal inside the goal at `g`; `h` brackets of it are open there.
fn beside(t: &[u8], w: &[u8], g: usize, j: usize, h: usize) -> bool
    requires { CanWait (words t.now) w.now g j h × (solved_at (words t.now) j ≡ true) }
    ensures { IsBeside (words t.now) g j result }
{
    let n = mem_words::count(t);
    if j < g + 2 {
        return false; // the guarded goal is not inside the goal
    }
    let i = j - 1;
    if rule_shapes::is_kind(t, i, Kind::Guarded) {
        let c = step_path::get(w, h - 2);
        return operator(t, c, i);
    }
    false // no guard
}

// Whether rule 6, 7 or 8 asks, at a place inside the goal at `g`, if the guard at `j` is quiet; `h` brackets of the goal are open there.
pub fn waits(t: &[u8], w: &[u8], g: usize, j: usize, h: usize) -> bool
    requires { CanWait (words t.now) w.now g j h }
    ensures { IsWaiting (words t.now) g j result }
{
    if rule_guards::solved(t, j) {
        if sole(t, g, j) {
            return true; // rule 6
        }
        return beside(t, w, g, j, h); // rule 7 or 8
    }
    false // not solved
}
