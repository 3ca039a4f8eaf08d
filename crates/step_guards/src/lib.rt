// The solved guards of a goal tested in one walk over its words: is one quiet for which rule 6, 7 or 8 waits? The stores are told and taken
// back as the boxes are entered and left. Before and afterwards nothing is told and no variable is marked; where an and-box has no solution
// all cells are made zero.
#![tactic(auto)]

ghost use Rattle.mem_words.specs.Words.{words};
ghost use Rattle.rule_solve.specs.Idle.{Idle};
ghost use Rattle.step_turn.specs.Stood.{CanWalk};
ghost use Rattle.step_guards.specs.Guards.{GuardsRest, Operators, CanAskOwn, OwnAsked, Asks};

use mem_sorts::Kind;
use rule_tells::Around;
use step_turn::{Mark, Stand};

// Whether no choice-box with the operator `->` or `|` begins at or inside the goal at `g`.
fn unguarded(t: &[u8], g: usize) -> bool
    ensures { Operators (words t.now) g result }
{
    let e = rule_close::end_of(t, g);
    for j in g..=e {
        if rule_shapes::is_kind(t, j, Kind::Cond) {
            return false;
        }
        if rule_shapes::is_kind(t, j, Kind::Commit) {
            return false;
        }
    }
    true
}

// Whether the store of the and-box at `j`, the innermost that is open and told last, is quiet for its environment, with its own locals.
// They are marked for the question alone.
fn own_quiet(t: &[u8], w: &mut [u8], j: usize, at: Stand) -> bool
    requires { CanAskOwn (words t.now) w.old j at.boxes at.mark.used at.mark.trail at.mark.applications }
    ensures { OwnAsked (words t.now) w.old j at.boxes at.mark.used at.mark.trail at.mark.applications w.new result }
{
    let i = 4 * (at.boxes - 1) + 2;
    let from = step_frames::get(w, i); // the trail before the box
    rule_locals::give_inside(t, w, j, 1);
    let r = step_quiet::silent(w, at.mark.used, at.mark.trail, at.mark.applications, from);
    rule_locals::give_inside(t, w, j, 0);
    r
}

// Goes over the words of the goal at `g`, whose environment was told up to the mark `environment`.
fn walk(t: &[u8], w: &mut [u8], g: usize, environment: Mark) -> bool
    requires { CanWalk (words t.now) g × Asks (words t.now) g environment.trail w.old g 0 0 environment.used environment.trail environment.applications 0 }
    ensures { GuardsRest (words t.now) g result × Idle w.new }
{
    let e = rule_close::end_of(t, g);
    let mut j = g;
    let mut at = Stand {
        depth: 0,
        boxes: 0,
        mark: environment,
    };
    let mut h: usize = 0;
    while j < e {
        let v = step_waits::waits(t, w, g, j, h);
        let Some(next) = step_turn::turn(t, w, j, at) else {
            mem_parts::zero(w, 16384, 212992);
            return false; // the box at j has no solution
        };
        h = step_path::pass(t, w, j, h);
        let i = j;
        at = next;
        j += 1;
        if v {
            if own_quiet(t, w, i, at) {
                work_ranges::back(w, at.mark.trail, 0);
                return false; // the rule applies
            }
        }
    }
    work_ranges::back(w, at.mark.trail, 0); // the environment
    true
}

// Whether no guard is quiet for which rule 6, 7 or 8 waits at a place inside the goal at `g`; or else an and-box of it is not calm.
pub fn guards_rest(t: &[u8], w: &mut [u8], g: usize) -> bool
    requires { Idle w.old × CanWalk (words t.now) g }
    ensures { GuardsRest (words t.now) g result × Idle w.new }
{
    if unguarded(t, g) {
        return true; // there is none
    }
    let r = rule_tells::tell_from(t, w, 0, g, 0, 0, 0);
    match r {
        Around::All(used, trail, applications) => {
            let environment = Mark {
                used,
                trail,
                applications,
            };
            walk(t, w, g, environment)
        }
        Around::Failed(m) => {
            work_ranges::back(w, m, 0);
            step_walk::boxless(t, g) // no box has a solution with its environment
        }
    }
}
