// Whether a goal is stable: its own place, the places inside it by their shape, its and-boxes, then its solved guards are asked for unrest.
#![tactic(auto)]

ghost use Rattle.std.specs.Prelude.{◌<◌, ◌≤◌, length};
ghost use Rattle.mem_words.specs.Words.{words};
ghost use Rattle.rule_solve.specs.Idle.{Idle};
ghost use Rattle.rule_effects.specs.Effects.{behind};
ghost use Rattle.step_meant.specs.Asked.{CanAsk, IsStable};
ghost use Rattle.step_stable.specs.Calm.{OwnPlace, PlacesRest};

use mem_sorts::Kind;

// Whether there is unrest at the goal's own place; and-boxes are left to the walk over them.
fn goal_stirs(t: &[u8], d: &[u8], w: &mut [u8], g: usize) -> bool
    requires { Idle w.old × CanAsk (words t.now) (words d.now) g }
    ensures { OwnPlace (words t.now) (words d.now) g result × Idle w.new }
{
    if rule_shapes::is_kind(t, g, Kind::And) {
        return false; // an and-box
    }
    step_unrest::unrest_at(t, d, w, g, g)
}

// Whether no rule applies by the shape alone at the places inside the goal.
fn places_rest(t: &[u8], g: usize) -> bool
    requires { (g < behind (words t.now) g) × (behind (words t.now) g ≤ length (words t.now)) }
    ensures { PlacesRest (words t.now) g result }
{
    let e = rule_close::end_of(t, g);
    let mut j = g + 1;
    while j <= e {
        if step_unrest::moved_at(t, j) {
            return false;
        }
        j += 1;
    }
    true
}

// Whether the goal at `g` of the configuration `t` is stable; `d` has the program's words. What is cheap is asked first.
pub fn stable(t: &[u8], d: &[u8], w: &mut [u8], g: usize) -> bool
    requires { Idle w.old × CanAsk (words t.now) (words d.now) g }
    ensures { IsStable (words t.now) (words d.now) g result × Idle w.new }
{
    if goal_stirs(t, d, w, g) {
        return false; // the goal itself
    }
    if places_rest(t, g) {
        if step_walk::calm(t, w, g) {
            let r = step_guards::guards_rest(t, w, g); // guards that must be quiet
            return r;
        }
        return false; // an and-box is not calm
    }
    false // another place
}
