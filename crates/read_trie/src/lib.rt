// Children in a trie in lent bytes, found in their chain or made.
#![tactic(auto)]

ghost use Rattle.std.specs.Prelude.{◌+◌, ◌*◌};
ghost use Rattle.mem_numbers.specs.Numbers.{shorts, triples};
ghost use Rattle.read_trie.specs.Outcome.{CanChild, CanMake, Childed};

// Makes the node `n` with the cell `c`, at the front of the chain of `p`: the node and the count of nodes, or None where there is no room.
fn make(
    cells: &mut [u8],
    heads: &mut [u8],
    nexts: &mut [u8],
    n: usize,
    p: usize,
    c: usize,
) -> Option<(usize, usize)>
    requires { CanMake (triples cells.old) (shorts heads.old) (shorts nexts.old) n p c }
    ensures { Childed (triples cells.old) (shorts heads.old) (shorts nexts.old) n c (triples cells.new) (shorts heads.new) (shorts nexts.new) result }
{
    if 65536 <= n {
        return None;
    }
    if mem_numbers::count::<3>(cells) <= n {
        return None;
    }
    if mem_numbers::count::<2>(heads) <= n {
        return None;
    }
    if mem_numbers::count::<2>(nexts) <= n {
        return None;
    }
    let first = mem_numbers::get::<2>(heads, p);
    mem_numbers::put::<3>(cells, n, c);
    mem_numbers::put::<2>(nexts, n, first);
    mem_numbers::put::<2>(heads, n, 0);
    mem_numbers::put::<2>(heads, p, n);
    Some((n, n + 1))
}

// The child of `p` by the byte `b`, found or made, and the count of nodes; None where there is no room for it.
pub fn child_of(
    cells: &mut [u8],
    heads: &mut [u8],
    nexts: &mut [u8],
    n: usize,
    p: usize,
    b: u8,
) -> Option<(usize, usize)>
    requires { CanChild (triples cells.old) (shorts heads.old) (shorts nexts.old) n p }
    ensures { Childed (triples cells.old) (shorts heads.old) (shorts nexts.old) n (p * 256 + b) (triples cells.new) (shorts heads.new) (shorts nexts.new) result }
{
    let c = p * 256 + usize::from(b);
    let mut q = mem_numbers::get::<2>(heads, p);
    while q != 0 {
        if mem_numbers::get::<3>(cells, q) == c {
            return Some((q, n));
        }
        q = mem_numbers::get::<2>(nexts, q);
    }
    make(cells, heads, nexts, n, p, c)
}
