// Whether numbers of nodes are those of a query's variables: names of variables, no two the same.
#![tactic(auto)]

ghost use Rattle.mem_numbers.specs.Numbers.{triples};
ghost use Rattle.mem_numbers.specs.Decides.{Decides};
ghost use Rattle.check_nodetables.specs.Tables.{kinds_of};
ghost use Rattle.work_tables.specs.Tables.{Laid};
ghost use Rattle.check_querynames.specs.Variables.{CanName, NamesPass};

// Whether the numbers in `vars` are nodes of the table of names whose names pass as those of a query's variables.
pub fn variables(cells: &[u8], vars: &[u8], w: &[u8]) -> bool
    requires { Laid w.now × CanName (triples cells.now) (kinds_of w.now) (triples vars.now) }
    ensures { Decides (NamesPass (triples cells.now) (triples vars.now)) result }
{
    let n = mem_numbers::count::<3>(cells);
    let q = mem_numbers::count::<3>(vars);
    for i in 0..q {
        let x = mem_numbers::get::<3>(vars, i);
        if x >= n {
            return false;
        }
        if mem_parts::get1(w, 0, 20490, x) < 4 {
            return false;
        }
        if read_lookups::listed(vars, i, x) {
            return false;
        }
    }
    true
}
