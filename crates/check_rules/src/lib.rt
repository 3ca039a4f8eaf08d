// Names, query variables and program of a store.
#![tactic(auto)]

ghost use Rattle.check_rules.specs.Rules.{CanRules, RulesChecked};

// Whether the table of names of `m` nodes, the `q` query variables and the `r` words of the program stand; the kinds of names and the
// definitions are left in the working slice.
pub fn rules(store: &[u8], m: usize, r: usize, q: usize, work: &mut [u8]) -> bool
    requires { CanRules store.now m r q work.old }
    ensures { RulesChecked store.now m r q work.old work.new result }
{
    let a = 18 + 3 * m;
    let d = 159789 + 3 * q;
    if !check_names::names(&store[18..a], &store[159789..d], work) {
        return false;
    }
    let e = a + 3 * r;
    check_program::program(work, &store[a..e], m)
}
