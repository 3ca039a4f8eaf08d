// All that refusal 9 asks of the variables of a configuration: numbers, query variables, locals that do not interfere, scope.
#![tactic(auto)]

ghost use Rattle.std.specs.Prelude.{◌≡◌, ◌<◌, ◌≤◌, ◌^◌, length};
ghost use Rattle.mem_words.specs.Words.{words};
ghost use Rattle.work_tables.specs.Tables.{Laid};
ghost use Rattle.check_vartables.specs.Tables.{Checked};
ghost use Rattle.check_scopes.specs.Scopes.{scopes_passed};

// Whether the words of a configuration with `q` query variables and the next fresh number `next` pass the tests of variables.
pub fn scopes(ws: &[u8], work: &mut [u8], q: usize, next: usize) -> bool
    requires { Laid work.old × (length (words ws.now) ≤ 28672) × (q < 2 ^ 63) }
    ensures { (result ≡ scopes_passed q next (words ws.now)) × Checked work.old work.new }
{
    if !check_numbers::numbers(ws, q, next) {
        return false;
    }
    if !check_query::query(ws, q) {
        return false;
    }
    if !check_apart::apart(ws, work) {
        return false;
    }
    check_scope::scope(ws, work)
}
