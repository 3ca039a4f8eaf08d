// Classes of variables in one working slice: the contracts are stated by `solve_classes`, at the tables of the slice.
#![tactic(auto)]

ghost use Rattle.std.specs.Prelude.{◌≤◌, length};
ghost use Rattle.mem_numbers.specs.Numbers.{triples};
ghost use Rattle.solve_classes.specs.Means.{Order, CanHang, CanJoin};
ghost use Rattle.mem_parts.specs.Parts.{cut};
ghost use Rattle.work_tables.specs.Tables.{cells_of, vars_of, olds_of, Laid};
ghost use Rattle.work_classes.specs.Joins.{CanOrder, JoinedIn};

use mem_variables::Variable;

// As `solve_classes::below`, in a part of the slice.
fn below_in(w: &[u8], s: usize, e: usize, a: usize, b: usize) -> bool
    requires { (s ≤ e) × (e ≤ length w.now) × CanOrder (triples (cut s e w.now)) a b }
    ensures { Order (triples (cut s e w.now)) a b result }
{
    solve_classes::below(&w[s..e], a, b)
}

// Whether `a` goes below `b`: by rank, then by number.
pub fn below(w: &[u8], a: Variable, b: Variable) -> bool
    requires { Laid w.now × CanOrder (cells_of w.now) a.0 b.0 }
    ensures { Order (cells_of w.now) a.0 b.0 result }
{
    below_in(w, 16384, 212992, a.0, b.0)
}

// Links the representative `a` below the representative `b`, whose rank rises if it was no higher.
pub fn hang(w: &mut [u8], n: usize, a: Variable, b: Variable) -> usize
    requires { Laid w.old × CanHang (cells_of w.old) (vars_of w.old) (olds_of w.old) n a.0 b.0 }
    ensures { JoinedIn w.old n a.0 b.0 w.new result }
{
    let one = n + 1;
    let two = one + 1;
    let ra = work_trail::cell_get(w, a.0) / 4 % 64;
    let cb = work_trail::cell_get(w, b.0);
    let rb = cb / 4 % 64;
    work_cells::save(w, n, a, 1 + ra * 4 + b.0 * 256);
    if ra < rb {
        return one;
    }
    if 62 < rb {
        return one;
    }
    work_cells::save(w, one, b, cb + 4);
    two
}

// Joins the classes of `x` and `y`. Their bindings are left to the caller: the trail's new entries have them.
pub fn join(w: &mut [u8], n: usize, x: Variable, y: Variable) -> usize
    requires { Laid w.old × CanJoin (cells_of w.old) (vars_of w.old) (olds_of w.old) n x.0 y.0 }
    ensures { JoinedIn w.old n x.0 y.0 w.new result }
{
    let a = work_cells::find(w, x);
    let b = work_cells::find(w, y);
    if a.0 == b.0 {
        return n;
    }
    if below(w, a, b) {
        return hang(w, n, a, b);
    }
    hang(w, n, b, a)
}
