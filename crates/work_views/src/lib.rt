// The class of a variable and what it is bound to, in the working slice. The contract is stated by `solve_quiet`, at the tables of
// the slice.
#![tactic(auto)]

ghost use Rattle.solve_quiet.specs.View.{CanView, Viewed};
ghost use Rattle.work_tables.specs.Tables.{cells_of, pos_of, Laid};

use mem_variables::Variable;
use solve_quiet::View;

// The class and the binding of `x`.
pub fn view_of(w: &[u8], x: Variable) -> View
    requires { Laid w.now × CanView (pos_of w.now) (cells_of w.now) x.0 }
    ensures { Viewed (pos_of w.now) (cells_of w.now) x.0 result }
{
    let r = work_cells::find(w, x);
    let c = work_trail::cell_get(w, r.0);
    if c % 4 != 2 {
        return View {
            root: r,
            term: None,
        };
    }
    let p = work_tables::pos_get(w, c / 256);
    View {
        root: r,
        term: Some(p),
    }
}
