// Whether a node of a table of names spells a word.
#![tactic(auto)]

ghost use Rattle.std.specs.Prelude.{◌≡◌, ◌<◌, length};
ghost use Rattle.akl.specs.Base.{same};
ghost use Rattle.mem_numbers.specs.Numbers.{triples};
ghost use Rattle.read_nodes.specs.Spell.{named, Lower};

// Whether the name of node `i` is `word`: compared from the end, on the way up to the root.
pub fn spelled(cells: &[u8], i: usize, word: &[u8]) -> bool
    requires { Lower (triples cells.now) (length (triples cells.now)) × (i < length (triples cells.now)) }
    ensures { result ≡ same (named (triples cells.now) i) word.now }
{
    let mut k = i;
    for j in (0..word.len()).rev() {
        if k == 0 {
            return false;
        }
        if read_nodes::byte_of(cells, k) != word[j] {
            return false;
        }
        k = read_nodes::parent_of(cells, k);
    }
    k == 0
}
