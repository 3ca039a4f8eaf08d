// The nodes of a trie in lent bytes. Node 0 is the root. The cell of a node above 0 is its parent * 256 + the last byte of its
// name. A node's children are a chain: `heads` has the first, `nexts` the next sibling, 0 for none. `n` is how many nodes
// there are, the root among them.
#![tactic(auto)]

ghost use Rattle.std.specs.Prelude.{◌≡◌, ◌/◌, ◌%◌, ◌<◌, length, get_or};
ghost use Rattle.mem_numbers.specs.Numbers.{shorts, triples};
ghost use Rattle.read_nodes.specs.Trie.{Kept};
ghost use Rattle.read_nodes.specs.Starting.{Started};

// Makes the empty trie, of one node, if the tables have room for it.
pub fn start(cells: &[u8], heads: &mut [u8], nexts: &[u8]) -> bool
    ensures { Kept (triples cells.now) (shorts heads.old) (shorts nexts.now) (triples cells.now) (shorts heads.new) (shorts nexts.now) × Started (triples cells.now) (shorts heads.new) (shorts nexts.now) result }
{
    if mem_numbers::count::<3>(cells) == 0 {
        return false;
    }
    if mem_numbers::count::<2>(nexts) == 0 {
        return false;
    }
    if mem_numbers::count::<2>(heads) == 0 {
        return false;
    }
    mem_numbers::put::<2>(heads, 0, 0);
    true
}

// The parent of the node `i` above 0.
pub fn parent_of(cells: &[u8], i: usize) -> usize
    requires { i < length (triples cells.now) }
    ensures { result ≡ get_or (triples cells.now) i 0 / 256 }
{
    mem_numbers::get::<3>(cells, i) / 256
}

// The last byte of the name of the node `i` above 0.
pub fn byte_of(cells: &[u8], i: usize) -> u8
    requires { i < length (triples cells.now) }
    ensures { result ≡ get_or (triples cells.now) i 0 % 256 }
{
    (mem_numbers::get::<3>(cells, i) % 256) as u8
}
