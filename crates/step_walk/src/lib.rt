// The and-boxes of a goal tested in one walk over its words: their stores are told and taken back as the boxes are entered and left.
// Before and afterwards nothing is told and no variable is marked; where an and-box has no solution all cells are made zero.
#![tactic(auto)]

ghost use Rattle.std.specs.Prelude.{[]};
ghost use Rattle.mem_words.specs.Words.{words};
ghost use Rattle.solve_quiet.specs.Solver.{Marking};
ghost use Rattle.work_tables.specs.Tables.{locals_of};
ghost use Rattle.work_marks.specs.Marks.{Walk};
ghost use Rattle.rule_ranges.specs.Ranges.{locals_at};
ghost use Rattle.rule_solve.specs.Idle.{Idle};
ghost use Rattle.step_turn.specs.Stood.{CanWalk};
ghost use Rattle.step_walk.specs.Calm.{Boxed, BoxesCalm, Walks};

use mem_sorts::Kind;
use rule_tells::Around;
use step_turn::{Mark, Stand};

// Whether no and-box begins at or inside the goal at `g`.
pub fn boxless(t: &[u8], g: usize) -> bool
    ensures { Boxed (words t.now) g result }
{
    let e = rule_close::end_of(t, g);
    for j in g..=e {
        if rule_shapes::is_kind(t, j, Kind::And) {
            return false;
        }
    }
    true
}

// Goes over the words of the goal at `g`, whose environment was told up to the mark `environment`.
fn walk(t: &[u8], w: &mut [u8], g: usize, environment: Mark) -> bool
    requires { CanWalk (words t.now) g × Walks (words t.now) g environment.trail w.old g 0 0 environment.used environment.trail environment.applications }
    ensures { BoxesCalm (words t.now) g result × Walk w.new [] × Marking (locals_of w.new) (locals_at (words t.now) g) }
{
    let e = rule_close::end_of(t, g);
    let mut j = g;
    let mut at = Stand {
        depth: 0,
        boxes: 0,
        mark: environment,
    };
    while j < e {
        let Some(next) = step_turn::turn(t, w, j, at) else {
            mem_parts::zero(w, 16384, 212992);
            return false; // the box at j has no solution
        };
        let i = j;
        at = next;
        j += 1;
        let mark = at.mark;
        if rule_shapes::is_kind(t, i, Kind::And) {
            if !step_quiet::silent(
                w,
                mark.used,
                mark.trail,
                mark.applications,
                environment.trail,
            ) {
                work_ranges::back(w, mark.trail, 0);
                return false; // it is not quiet
            }
        }
    }
    work_ranges::back(w, at.mark.trail, 0); // the environment
    true
}

// As `calm`, with the locals inside the goal marked.
fn calm_marked(t: &[u8], w: &mut [u8], g: usize) -> bool
    requires { Walk w.old [] × Marking (locals_of w.old) (locals_at (words t.now) g) × CanWalk (words t.now) g }
    ensures { BoxesCalm (words t.now) g result × Walk w.new [] × Marking (locals_of w.new) (locals_at (words t.now) g) }
{
    let r = rule_tells::tell_from(t, w, 0, g, 0, 0, 0);
    match r {
        Around::All(used, trail, applications) => {
            let environment = Mark {
                used,
                trail,
                applications,
            };
            walk(t, w, g, environment)
        }
        Around::Failed(m) => {
            work_ranges::back(w, m, 0);
            boxless(t, g) // no box has a solution with its environment
        }
    }
}

// Whether every and-box at or inside the goal at `g` has a solution with its environment, and the stores from the goal down to it are
// quiet for the goal's environment.
pub fn calm(t: &[u8], w: &mut [u8], g: usize) -> bool
    requires { Idle w.old × CanWalk (words t.now) g }
    ensures { BoxesCalm (words t.now) g result × Idle w.new }
{
    rule_locals::give_inside(t, w, g, 1);
    let r = calm_marked(t, w, g);
    rule_locals::give_inside(t, w, g, 0);
    r
}
