// Marks of names: for each node of a table of names how its name is spelled and how long it is, from its parent's mark and its byte.
#![tactic(auto)]

ghost use Rattle.std.specs.Prelude.{◌≡◌, true, ◌<◌, length};
ghost use Rattle.akl.specs.Token.{class_of, word_class, digit_class};
ghost use Rattle.mem_numbers.specs.Numbers.{triples};
ghost use Rattle.work_tables.specs.Tables.{Laid};
ghost use Rattle.check_links.specs.Links.{Nodes};
ghost use Rattle.check_nodetables.specs.Tables.{kinds_of, Marked};
ghost use Rattle.check_namemarks.specs.Marks.{formed, goes, packed, marked, RootMarked, MarkedTo};

use read_bytes::Class;

// How a name of one byte is spelled: 1 as a name, 2 as digits, 3 as a variable, 0 as none of them.
// A number and not an enum: the table keeps it as two bits of the node's byte, beside the length.
fn first(x: u8) -> usize
    ensures { result ≡ formed (class_of x) true true }
{
    let c = read_bytes::class_of(x);
    match c {
        Class::Small => 1,
        Class::Capital => 3,
        Class::Digit => 2,
        Class::Underscore => 0,
        Class::Blank => 0,
        Class::Mark => 0,
        Class::Other => 0,
    }
}

// How a name that is spelled in the way `f` is spelled with one byte more.
fn further(f: usize, x: u8) -> usize
    ensures { result ≡ goes f (word_class (class_of x)) (digit_class (class_of x)) }
{
    if f == 2 {
        if read_bytes::is_digit(x) {
            return 2;
        }
        return 0;
    }
    if read_bytes::is_word(x) {
        return f;
    }
    0
}

// The mark of a name that is spelled in the way `f` and has `l` bytes.
fn pack(f: usize, l: usize) -> usize
    requires { f < 4 }
    ensures { (result ≡ packed f l) × (result < 256) }
{
    if f == 0 {
        return 0;
    }
    if l > 32 {
        return 0;
    }
    f * 64 + l
}

// The mark of a node by its parent's number and mark, and its byte.
fn mark(p: usize, s: usize, x: u8) -> usize
    requires { s < 256 }
    ensures { (result ≡ marked p s (class_of x)) × (result < 256) }
{
    if p == 0 {
        let f = first(x);
        return pack(f, 1);
    }
    let f = further(s / 64, x);
    let l = s % 64 + 1;
    pack(f, l)
}

// Marks all nodes, where the root is marked.
fn mark_all(cells: &[u8], w: &mut [u8])
    requires { Laid w.old × Nodes (triples cells.now) × RootMarked (kinds_of w.old) }
    ensures { MarkedTo (triples cells.now) (kinds_of w.new) (length (triples cells.now)) × Marked w.old w.new }
{
    let n = mem_numbers::count::<3>(cells);
    for i in 1..n {
        let p = read_nodes::parent_of(cells, i);
        let x = read_nodes::byte_of(cells, i);
        let s = mem_parts::get1(w, 0, 20490, p);
        let v = mark(p, s, x);
        mem_parts::put1(w, 0, 20490, i, v);
    }
}

// Marks all nodes, whatever the table held.
pub fn marks(cells: &[u8], w: &mut [u8])
    requires { Laid w.old × Nodes (triples cells.now) }
    ensures { MarkedTo (triples cells.now) (kinds_of w.new) (length (triples cells.now)) × Marked w.old w.new }
{
    mem_parts::put1(w, 0, 20490, 0, 0);
    mark_all(cells, w);
}
