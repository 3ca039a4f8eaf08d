// Cells of variables in lent bytes, each a link to another variable or a root. The kind of a cell is the number that its two lowest
// bits hold, since the memory of the tables is fixed: 0 for an unbound root, 1 for a link, 2 for a bound root, 3 for an owned one.
#![tactic(auto)]

ghost use Rattle.mem_numbers.specs.Numbers.{triples};
ghost use Rattle.solve_cells.specs.Cells.{Found, CanFind};

// The representative of `x`.
pub fn find(cells: &[u8], x: usize) -> usize
    requires { CanFind (triples cells.now) x }
    ensures { Found (triples cells.now) x result }
{
    let mut y = x;
    let mut c = mem_numbers::get::<3>(cells, x);
    while c % 4 == 1 {
        y = c / 256;
        c = mem_numbers::get::<3>(cells, y);
    }
    y
}
