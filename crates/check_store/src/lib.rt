// Refusal 9: whether bytes hold a well-formed state.
#![tactic(auto)]

ghost use Rattle.check_store.specs.Store.{LongEnough, Formed};

use check_header::Heading;

// Whether the first 245,853 bytes of `store` hold a well-formed program and configuration. The working slice need not be zero before,
// and is not afterwards.
pub fn formed(store: &[u8], work: &mut [u8]) -> bool
    requires { LongEnough store.now work.old }
    ensures { Formed store.now result }
{
    let h = check_bytes::bytes(store, 2048);
    match h {
        Heading::Counted(c) => {
            if !check_rules::rules(store, c.nodes, c.rules, c.variables, work) {
                return false;
            }
            let e = 159837 + 3 * c.words;
            check_goals::goals(&store[159837..e], c.nodes, c.variables, c.next, work)
        }
        Heading::Wrong => false,
    }
}
