// The constraint that a word of the log begins is told to the tables of the working slice. The contract is stated by
// `solve_tells`, at the tables of the slice; besides, a new application stands where the word does.
#![tactic(auto)]

ghost use Rattle.std.specs.Prelude.{◌≡◌, ◌+◌};
ghost use Rattle.solve_tells.specs.Tells.{CanOne, Telling, told_by, one_at, apps_at};
ghost use Rattle.work_tables.specs.Tables.{cells_of, vars_of, olds_of, pos_of, log_of, Laid, Logged, Noted};
ghost use Rattle.work_tells.specs.Positions.{Ahead};

use mem_variables::Variable;
use solve_begins::Begun;
use solve_tells::{Stop, Told};

// The end of a step as that of telling, where `a` applications are told then.
fn told_by(r: Result<usize, Stop>, a: usize) -> Told
    ensures { result ≡ told_by r a }
{
    match r {
        Ok(n) => Told::All(n, a),
        Err(Stop::Clash(n)) => Told::Failed(n, a),
        Err(Stop::Full(n)) => Told::NoRoom(n, a),
    }
}

// Tells the constraint that the word at `i` begins, if it begins one.
pub fn tell_one(w: &mut [u8], used: usize, n: usize, a: usize, i: usize) -> Told
    requires { Laid w.old × Logged used × CanOne (log_of used w.old) (pos_of w.old) (cells_of w.old) (vars_of w.old) (olds_of w.old) n a i }
    ensures { Telling (log_of used w.old) (pos_of w.old) (cells_of w.old) (vars_of w.old) (olds_of w.old) n a (apps_at (log_of used w.old) i) (one_at (log_of used w.old) i) (pos_of w.new) (cells_of w.new) (vars_of w.new) (olds_of w.new) result × Noted w.old w.new × Ahead a (i + 1) (pos_of w.new) result }
{
    let j = i + 1;
    let b = solve_begins::begins(work_tables::peek(w, used, i));
    match b {
        Begun::Nothing => Told::All(n, a),
        Begun::Fail => Told::Failed(n, a),
        Begun::Equation => {
            let x = solve_fields::var_of(work_tables::peek(w, used, j));
            let y = solve_fields::var_of(work_tables::peek(w, used, j + 1));
            let r = work_takes::equate(w, used, n, Variable(x), Variable(y));
            told_by(r, a)
        }
        Begun::Application => {
            if 2048 <= a {
                return Told::NoRoom(n, a);
            }
            work_tables::pos_put(w, a, i);
            let z = solve_fields::var_of(work_tables::peek(w, used, j));
            let v = work_takes::apply(w, used, n, Variable(z), a);
            told_by(v, a + 1)
        }
    }
}
