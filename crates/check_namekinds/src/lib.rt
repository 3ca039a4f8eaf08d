// Kinds of names: for each node of a table of names one byte, 1 for a constructor's name, 2 for a predicate's, 4 for a variable's, added.
#![tactic(auto)]

ghost use Rattle.std.specs.Prelude.{length};
ghost use Rattle.mem_numbers.specs.Numbers.{triples};
ghost use Rattle.work_tables.specs.Tables.{Laid};
ghost use Rattle.check_links.specs.Links.{Nodes};
ghost use Rattle.check_nodetables.specs.Tables.{kinds_of, Marked};
ghost use Rattle.check_namemarks.specs.Marks.{MarkedTo};
ghost use Rattle.check_namekinds.specs.Kinds.{CanKind, IsKind, KindsTo};

// The kind of node `i`, whose mark is `s`. A sum of bits and not an enum: the table keeps it in the node's byte, and one name may be of
// two kinds.
fn kind(cells: &[u8], i: usize, s: usize) -> usize
    requires { CanKind (triples cells.now) i s }
    ensures { IsKind (triples cells.now) i result }
{
    let f = s / 64;
    if f == 0 {
        return 0;
    }
    if f == 2 {
        return 1;
    }
    if f > 2 {
        return 4;
    }
    if check_spelled::spelled(cells, i, b"true") {
        return 1;
    }
    if check_spelled::spelled(cells, i, b"fail") {
        return 1;
    }
    3
}

// Puts kinds in the place of marks.
fn kind_all(cells: &[u8], w: &mut [u8])
    requires { Laid w.old × Nodes (triples cells.now) × MarkedTo (triples cells.now) (kinds_of w.old) (length (triples cells.now)) }
    ensures { KindsTo (triples cells.now) (kinds_of w.new) (length (triples cells.now)) × Marked w.old w.new }
{
    let n = mem_numbers::count::<3>(cells);
    for i in 0..n {
        let s = mem_parts::get1(w, 0, 20490, i);
        let k = kind(cells, i, s);
        mem_parts::put1(w, 0, 20490, i, k);
    }
}

// The kinds of all nodes, whatever the table held.
pub fn kinds(cells: &[u8], w: &mut [u8])
    requires { Laid w.old × Nodes (triples cells.now) }
    ensures { KindsTo (triples cells.now) (kinds_of w.new) (length (triples cells.now)) × Marked w.old w.new }
{
    check_namemarks::marks(cells, w);
    kind_all(cells, w);
}
