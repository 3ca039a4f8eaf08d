// Which of two representatives in a table of cells goes below the other. Classes are joined by rank without shortening paths,
// so that every change can be taken back from a trail.
#![tactic(auto)]

ghost use Rattle.std.specs.Prelude.{◌≡◌, ◌<◌, length};
ghost use Rattle.mem_numbers.specs.Numbers.{triples};
ghost use Rattle.solve_classes.specs.Means.{Order};

// Whether `a` goes below `b`: by rank, then by number.
pub fn below(cells: &[u8], a: usize, b: usize) -> bool
    requires { (a < length (triples cells.now)) × (b < length (triples cells.now)) × (length (triples cells.now) < 65537) × (a ≡ b → ⊥) }
    ensures { Order (triples cells.now) a b result }
{
    let ra = mem_numbers::get::<3>(cells, a) / 4 % 64;
    let rb = mem_numbers::get::<3>(cells, b) / 4 % 64;
    if ra < rb {
        return true;
    }
    if rb < ra {
        return false;
    }
    if a < b {
        return true;
    }
    false
}
