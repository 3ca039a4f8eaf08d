// The configuration of a store.
#![tactic(auto)]

ghost use Rattle.mem_words.specs.Words.{words};
ghost use Rattle.check_goals.specs.Goals.{CanGoals, GoalsChecked};

// Whether the words `ws` are a configuration whose statements pass, of at most 2,048 parts, with its variables in order; by the kinds of
// `m` names and the definitions in the working slice, with `q` query variables and the next fresh number `next`.
pub fn goals(ws: &[u8], m: usize, q: usize, next: usize, work: &mut [u8]) -> bool
    requires { CanGoals work.old m q (words ws.now) }
    ensures { GoalsChecked work.old m q next (words ws.now) work.new result }
{
    if !check_config::config(work, ws, m) {
        return false;
    }
    let p = store_parts::parts(ws);
    if 2048 < p {
        return false;
    }
    check_scopes::scopes(ws, work, q, next)
}
