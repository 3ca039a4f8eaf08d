// The names `true` and `fail` are given their numbers.
#![tactic(auto)]

ghost use Rattle.mem_numbers.specs.Numbers.{shorts, triples};
ghost use Rattle.read_lexicon.specs.Lexicon.{Begun};

// Makes the trie of the two names `true` and `fail`, of 9 nodes, if the tables have room for it.
pub fn reserve(cells: &mut [u8], heads: &mut [u8], nexts: &mut [u8]) -> bool
    ensures { Begun (triples cells.old) (shorts heads.old) (shorts nexts.old) (triples cells.new) (shorts heads.new) (shorts nexts.new) result }
{
    if !read_nodes::start(cells, heads, nexts) {
        return false;
    }
    let Some((_four, m)) = read_names::intern(b"true", 0, 4, cells, heads, nexts, 1) else {
        return false;
    };
    let Some((_eight, _nine)) = read_names::intern(b"fail", 0, 4, cells, heads, nexts, m) else {
        return false;
    };
    true
}
