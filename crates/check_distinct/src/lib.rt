// Whether no two nodes of a table of names have the same parent and byte, in time linear in the nodes.
#![tactic(auto)]

ghost use Rattle.std.specs.Prelude.{◌<◌, length};
ghost use Rattle.mem_numbers.specs.Numbers.{triples};
ghost use Rattle.mem_numbers.specs.Decides.{Decides};
ghost use Rattle.work_tables.specs.Tables.{Laid};
ghost use Rattle.check_links.specs.Links.{Nodes, Linked};
ghost use Rattle.check_nodetables.specs.Tables.{heads_of, nexts_of, stamps_of, Stamped, Looked};
ghost use Rattle.check_distinct.specs.Apart.{Apart, AtMost, Walks, NoStamps};

// Walks over the children of `p`: whether no two have the same byte. A byte that was met has the stamp `p + 1`.
fn walk(cells: &[u8], w: &mut [u8], p: usize) -> bool
    requires { Laid w.old × Nodes (triples cells.now) × Linked (triples cells.now) (heads_of w.old) (nexts_of w.old) (length (triples cells.now)) × AtMost (stamps_of w.old) p × (p < length (triples cells.now)) }
    ensures { Walks (triples cells.now) p (stamps_of w.new) result × Stamped w.old w.new }
{
    let stamp = p + 1;
    let mut q = mem_parts::get::<2>(w, 65536, 106516, p);
    while q != 0 {
        let x = usize::from(read_nodes::byte_of(cells, q));
        if mem_parts::get::<2>(w, 147496, 148008, x) == stamp {
            return false;
        }
        mem_parts::put::<2>(w, 147496, 148008, x, stamp);
        q = mem_parts::get::<2>(w, 106516, 147496, q);
    }
    true
}

// Walks over the children of every node, where no byte has a stamp.
fn walk_all(cells: &[u8], w: &mut [u8]) -> bool
    requires { Laid w.old × Nodes (triples cells.now) × Linked (triples cells.now) (heads_of w.old) (nexts_of w.old) (length (triples cells.now)) × NoStamps (stamps_of w.old) }
    ensures { Decides (Apart (triples cells.now)) result × Stamped w.old w.new }
{
    let n = mem_numbers::count::<3>(cells);
    for p in 0..n {
        if !walk(cells, w, p) {
            return false;
        }
    }
    true
}

// Whether no two nodes have the same parent and byte.
pub fn apart(cells: &[u8], w: &mut [u8]) -> bool
    requires { Laid w.old × Nodes (triples cells.now) }
    ensures { Decides (Apart (triples cells.now)) result × Looked w.old w.new }
{
    check_links::link(cells, w);
    mem_parts::zero(w, 147496, 148008);
    walk_all(cells, w)
}
