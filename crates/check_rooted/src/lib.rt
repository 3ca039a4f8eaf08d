// Whether a table of names has its root first, and every other node a parent below it.
#![tactic(auto)]

ghost use Rattle.std.specs.Prelude.{◌<◌, length};
ghost use Rattle.mem_numbers.specs.Numbers.{triples};
ghost use Rattle.mem_numbers.specs.Decides.{Decides};
ghost use Rattle.check_rooted.specs.Rooted.{Rooted};

// Whether the cells are those of a trie, as far as its root and its parents go.
pub fn rooted(cells: &[u8]) -> bool
    requires { 0 < length (triples cells.now) }
    ensures { Decides (Rooted (triples cells.now)) result }
{
    if mem_numbers::get::<3>(cells, 0) != 0 {
        return false;
    }
    let n = mem_numbers::count::<3>(cells);
    for i in 1..n {
        if read_nodes::parent_of(cells, i) >= i {
            return false;
        }
    }
    true
}
