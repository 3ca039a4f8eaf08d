// Constraints told from ranges of the log to the tables of the working slice, and taken back to an earlier mark. The contracts are
// stated by `solve_tells`, at the tables of the slice.
#![tactic(auto)]

ghost use Rattle.solve_tells.specs.Tells.{CanTell, Telling, range_of, apps_in, CanBack};
ghost use Rattle.work_tables.specs.Tables.{cells_of, vars_of, olds_of, pos_of, log_of, Laid, Logged, Noted};
ghost use Rattle.work_tells.specs.Positions.{Ahead};
ghost use Rattle.work_ranges.specs.Backs.{BackIn};

use solve_tells::Told;

// Tells the constraints that begin in the words of the log from `from` on up to `to`.
pub fn tell(w: &mut [u8], used: usize, n: usize, a: usize, from: usize, to: usize) -> Told
    requires { Laid w.old × Logged used × CanTell (log_of used w.old) (pos_of w.old) (cells_of w.old) (vars_of w.old) (olds_of w.old) n a from to }
    ensures { Telling (log_of used w.old) (pos_of w.old) (cells_of w.old) (vars_of w.old) (olds_of w.old) n a (apps_in (log_of used w.old) from to) (range_of (log_of used w.old) from to) (pos_of w.new) (cells_of w.new) (vars_of w.new) (olds_of w.new) result × Noted w.old w.new × Ahead a to (pos_of w.new) result }
{
    let mut m = n;
    let mut k = a;
    for i in from..to {
        let r = work_tells::tell_one(w, used, m, k, i);
        match r {
            Told::All(e, f) => {
                m = e;
                k = f;
            }
            Told::Failed(e, f) => {
                return Told::Failed(e, f);
            }
            Told::NoRoom(e, f) => {
                return Told::NoRoom(e, f);
            }
        }
    }
    Told::All(m, k)
}

// Takes the changes of the trail from `n` on up to `m` back: the tables are those of the earlier mark.
pub fn back(w: &mut [u8], m: usize, n: usize)
    requires { Laid w.old × CanBack (cells_of w.old) (vars_of w.old) (olds_of w.old) m n }
    ensures { BackIn w.old m n w.new }
{
    work_cells::undo(w, m, n);
}
