// The solver asked of the stores around a position of a configuration. Between two questions nothing is told and no variable is marked:
// a question takes back what it told, and costs that and not what the tables hold.
#![tactic(auto)]

ghost use Rattle.std.specs.Prelude.{[], ◌++◌, ◌+◌, ◌<◌, ◌≤◌, length};
ghost use Rattle.mem_words.specs.Words.{words};
ghost use Rattle.mem_parts.specs.Parts.{Outside};
ghost use Rattle.work_tables.specs.Tables.{Laid};
ghost use Rattle.work_marks.specs.Marks.{Walk};
ghost use Rattle.rule_ranges.specs.Ranges.{ranges_from};
ghost use Rattle.rule_ranges.specs.Asked.{Roomy, RoomFor, SatIn, QuietIn};
ghost use Rattle.rule_solve.specs.Idle.{Idle, CanQuiet};

use rule_tells::Around;
use solve_quiet::Calm;

// Makes all cells and all marks of locals zero: nothing is told and no variable is marked, whatever the slice held.
pub fn ready(w: &mut [u8])
    requires { Laid w.old }
    ensures { Idle w.new × Outside 0 401408 w.old w.new }
{
    mem_parts::zero(w, 16384, 212992); // cells
    mem_parts::zero(w, 335872, 401408); // marks of locals
}

// Whether the store of the and-box at `j` and its environment have a solution.
pub fn sat_at(t: &[u8], w: &mut [u8], j: usize) -> bool
    requires { Idle w.old × Roomy (words t.now) × (j < length (words t.now)) × RoomFor (words t.now) (ranges_from (words t.now) 0 (j + 1)) }
    ensures { SatIn (words t.now) j result × Idle w.new × Outside 0 401408 w.old w.new }
{
    let r = rule_tells::tell_from(t, w, 0, j + 1, 0, 0, 0);
    match r {
        Around::All(_u, n, _a) => {
            work_ranges::back(w, n, 0);
            true
        }
        Around::Failed(k) => {
            work_ranges::back(w, k, 0); // as far as they were told
            false // they have none
        }
    }
}

// As `quiet_at`, with the locals inside the goal marked.
fn quiet_marked(t: &[u8], w: &mut [u8], g: usize, j: usize) -> bool
    requires { CanQuiet (words t.now) w.old g j }
    ensures { QuietIn (words t.now) g j result × Walk w.new [] × Outside 0 335872 w.old w.new }
{
    let r = rule_tells::tell_from(t, w, 0, g, 0, 0, 0);
    match r {
        Around::All(u, n, a) => {
            let q = rule_tells::tell_from(t, w, g, j + 1, u, n, a);
            match q {
                Around::All(v, m, b) => {
                    let c = work_quiet::quiet(w, v, m, b, n);
                    work_ranges::back(w, m, 0);
                    match c {
                        Calm::Silent => true,
                        Calm::Loudly => false,
                        Calm::NoSpace => false,
                    }
                }
                Around::Failed(k) => {
                    work_ranges::back(w, k, 0); // with the environment
                    false // the environment has a solution
                }
            }
        }
        Around::Failed(k) => {
            work_ranges::back(w, k, 0); // as far as it was told
            true // nothing satisfies the environment
        }
    }
}

// Whether the stores from the goal at `g` down to the and-box at `j` are quiet, with all locals inside the goal, for the goal's
// environment.
pub fn quiet_at(t: &[u8], w: &mut [u8], g: usize, j: usize) -> bool
    requires { Idle w.old × Roomy (words t.now) × (g ≤ j) × (j < length (words t.now)) × RoomFor (words t.now) (ranges_from (words t.now) 0 g ++ ranges_from (words t.now) g (j + 1)) }
    ensures { QuietIn (words t.now) g j result × Idle w.new × Outside 0 401408 w.old w.new }
{
    rule_locals::give_inside(t, w, g, 1);
    let r = quiet_marked(t, w, g, j);
    rule_locals::give_inside(t, w, g, 0);
    r
}
