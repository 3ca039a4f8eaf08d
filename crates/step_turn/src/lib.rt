// One word of a walk over the and-boxes of a goal: a box is entered and its store told, or it is left.
#![tactic(auto)]

ghost use Rattle.std.specs.Prelude.{◌≡◌, true};
ghost use Rattle.mem_words.specs.Words.{words};
ghost use Rattle.mem_sorts.specs.declared.Kind.TheVariants as kinds;
ghost use Rattle.rule_effects.specs.Conditions.{kind_at};
ghost use Rattle.step_turn.specs.Shapes.{shape_in, shape_of};
ghost use Rattle.step_turn.specs.Stood.{CanTurn, Turned};
ghost use Rattle.step_turn.specs.Leaving.{CanLeave, Left};

use mem_sorts::Kind;
use mem_words::Word;
use rule_tells::Around;

// What a word is to the walk.
#[derive(Clone, Copy)]
enum Shape {
    Box,
    Opens,
    Closes,
    Else,
}

// A mark of the walk: the used words of the log, the trail and the applications.
#[derive(Clone, Copy)]
pub struct Mark {
    pub used: usize,
    pub trail: usize,
    pub applications: usize,
}

// Where the walk stands: how many brackets are open inside the innermost and-box, how many and-boxes are open, and the latest mark.
#[derive(Clone, Copy)]
pub struct Stand {
    pub depth: usize,
    pub boxes: usize,
    pub mark: Mark,
}

fn place_shape(k: Kind) -> Shape
    ensures { result ≡ shape_in k }
{
    match k {
        Kind::Or => Shape::Opens,
        Kind::And => Shape::Box,
        Kind::Guarded => Shape::Opens,
        Kind::Member => Shape::Opens,
        Kind::Wait => Shape::Opens,
        Kind::Cond => Shape::Opens,
        Kind::Commit => Shape::Opens,
    }
}

fn word_shape(x: Word) -> Shape
    ensures { result ≡ shape_of x }
{
    match x {
        Word::End => Shape::Closes,
        Word::Free(_) => Shape::Else,
        Word::Level(_) => Shape::Else,
        Word::Num(_) => Shape::Else,
        Word::Place(k) => place_shape(k),
        Word::Inner(_) => Shape::Opens,
        Word::Bad => Shape::Else,
    }
}

// Enters the and-box at `j`: its store is told on top of the mark, and an entry for the mark put onto the stack.
fn enter(t: &[u8], w: &mut [u8], j: usize, at: Stand) -> Option<Stand>
    requires { CanTurn (words t.now) w.old j at.depth at.boxes at.mark.used at.mark.trail at.mark.applications × (kind_at (words t.now) j kinds.And ≡ true) }
    ensures { Turned (words t.now) w.old j at.depth at.boxes at.mark.used at.mark.trail at.mark.applications w.new result }
{
    let m = at.mark;
    let r = rule_tells::tell_from(t, w, j, j + 1, m.used, m.trail, m.applications);
    match r {
        Around::All(used, trail, applications) => {
            step_frames::push(w, at.boxes, at.depth, m.used, m.trail, m.applications);
            let mark = Mark {
                used,
                trail,
                applications,
            };
            Some(Stand {
                depth: 0,
                boxes: at.boxes + 1,
                mark,
            })
        }
        Around::Failed(_m) => None,
    }
}

// Leaves the innermost of `k` and-boxes, at a trail of `n`: the tables are those of the mark before it.
fn leave(w: &mut [u8], k: usize, n: usize) -> Stand
    requires { CanLeave w.old k n }
    ensures { Left w.old k n w.new result }
{
    let h = k - 1;
    let i = 4 * h;
    let d = step_frames::get(w, i);
    let u = step_frames::get(w, i + 1);
    let m = step_frames::get(w, i + 2);
    let a = step_frames::get(w, i + 3);
    work_ranges::back(w, n, m);
    let mark = Mark {
        used: u,
        trail: m,
        applications: a,
    };
    Stand {
        depth: d,
        boxes: h,
        mark,
    }
}

// Goes over the word at `j`: where the walk stands behind it, or nothing where an and-box has no solution with its environment.
pub fn turn(t: &[u8], w: &mut [u8], j: usize, at: Stand) -> Option<Stand>
    requires { CanTurn (words t.now) w.old j at.depth at.boxes at.mark.used at.mark.trail at.mark.applications }
    ensures { Turned (words t.now) w.old j at.depth at.boxes at.mark.used at.mark.trail at.mark.applications w.new result }
{
    let x = mem_get::get(t, j);
    let s = word_shape(x);
    match s {
        Shape::Box => enter(t, w, j, at),
        Shape::Opens => Some(Stand {
            depth: at.depth + 1,
            ..at
        }),
        Shape::Closes => {
            if at.depth == 0 {
                return Some(leave(w, at.boxes, at.mark.trail));
            }
            Some(Stand {
                depth: at.depth - 1,
                ..at
            })
        }
        Shape::Else => Some(at),
    }
}
