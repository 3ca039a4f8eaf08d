// Whether a table of names is a trie, and numbers of its nodes are those of a query's variables; and the kinds of its names.
#![tactic(auto)]

ghost use Rattle.mem_numbers.specs.Numbers.{triples};
ghost use Rattle.work_tables.specs.Tables.{Laid};
ghost use Rattle.check_nodetables.specs.Tables.{kinds_of};
ghost use Rattle.check_names.specs.Names.{CanLook, Told, Touched};

// Looks at the cells of a table of names and at the numbers of a query's variables, and leaves the kinds of the names in `w`.
pub fn names(cells: &[u8], vars: &[u8], w: &mut [u8]) -> bool
    requires { Laid w.old × CanLook (triples cells.now) (triples vars.now) }
    ensures { Told (triples cells.now) (triples vars.now) (kinds_of w.new) result × Touched w.old w.new }
{
    if !check_rooted::rooted(cells) {
        return false;
    }
    if !check_distinct::apart(cells, w) {
        return false;
    }
    check_namekinds::kinds(cells, w);
    check_querynames::variables(cells, vars, w)
}
