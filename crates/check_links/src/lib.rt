// The nodes of a table of names linked by their parents: each parent's first child, and each node's next sibling, last node first.
#![tactic(auto)]

ghost use Rattle.std.specs.Prelude.{length};
ghost use Rattle.mem_numbers.specs.Numbers.{triples};
ghost use Rattle.work_tables.specs.Tables.{Laid};
ghost use Rattle.check_nodetables.specs.Tables.{heads_of, nexts_of, Joined};
ghost use Rattle.check_links.specs.Links.{Nodes, NoHeads, Linked};

// Links the nodes, where no parent has a child yet.
fn link_all(cells: &[u8], w: &mut [u8])
    requires { Laid w.old × Nodes (triples cells.now) × NoHeads (heads_of w.old) }
    ensures { Linked (triples cells.now) (heads_of w.new) (nexts_of w.new) (length (triples cells.now)) × Joined w.old w.new }
{
    let n = mem_numbers::count::<3>(cells);
    for i in 1..n {
        let p = read_nodes::parent_of(cells, i);
        let h = mem_parts::get::<2>(w, 65536, 106516, p);
        mem_parts::put::<2>(w, 106516, 147496, i, h);
        mem_parts::put::<2>(w, 65536, 106516, p, i);
    }
}

// Links the nodes, whatever the tables held.
pub fn link(cells: &[u8], w: &mut [u8])
    requires { Laid w.old × Nodes (triples cells.now) }
    ensures { Linked (triples cells.now) (heads_of w.new) (nexts_of w.new) (length (triples cells.now)) × Joined w.old w.new }
{
    mem_parts::zero(w, 65536, 106516);
    link_all(cells, w);
}
