// Names numbered by a trie in lent bytes: equal names have equal numbers, and a name can be spelled from its number.
#![tactic(auto)]

ghost use Rattle.mem_numbers.specs.Numbers.{shorts, triples};
ghost use Rattle.read_names.specs.Interning.{CanIntern, Interned};

// The number of the name of `len` bytes from `at` on, and the count of nodes; None where there is no room for it.
pub fn intern(
    text: &[u8],
    at: usize,
    len: usize,
    cells: &mut [u8],
    heads: &mut [u8],
    nexts: &mut [u8],
    n: usize,
) -> Option<(usize, usize)>
    requires { CanIntern text.now at len (triples cells.old) (shorts heads.old) (shorts nexts.old) n }
    ensures { Interned text.now at len (triples cells.old) (shorts heads.old) (shorts nexts.old) n (triples cells.new) (shorts heads.new) (shorts nexts.new) result }
{
    let mut p = 0;
    let mut m = n;
    for i in 0..len {
        let b = text[at + i];
        let (q, k) = read_trie::child_of(cells, heads, nexts, m, p, b)?;
        p = q;
        m = k;
    }
    Some((p, m))
}
