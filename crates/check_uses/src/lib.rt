// Whether a variable may be used where it stands, by the tables of the test of scope.
#![tactic(auto)]

ghost use Rattle.std.specs.Prelude.{◌≡◌, ◌<◌, ◌≤◌};
ghost use Rattle.mem_words.specs.Words.{words};
ghost use Rattle.work_tables.specs.Tables.{Laid};
ghost use Rattle.check_vartables.specs.Tables.{stack_of, links_of};
ghost use Rattle.check_vartables.specs.Stacks.{tops};
ghost use Rattle.check_roles.specs.Steps.{aimed, excuses, top_naming};
ghost use Rattle.check_uses.specs.Uses.{Look, may_use};

use check_roles::Role;
use mem_variables::Variable;

// One more than the position of the guarded goal that the innermost of `k` open brackets belongs to; 0 if there is none. No Option: the
// number is read from the table of links and written there as it is.
pub fn aim(ws: &[u8], work: &[u8], k: usize) -> usize
    requires { Look (words ws.now) work.now k }
    ensures { result ≡ aimed (words ws.now) (links_of work.now) (tops (stack_of work.now) k) }
{
    if k == 0 {
        return 0;
    }
    let p = check_vartables::stack_get(work, k - 1);
    let w = mem_get::get(ws, p);
    let o = check_roles::role_of(w);
    match o {
        Role::Clear => check_vartables::link_get(work, p),
        Role::Plain => 0,
        Role::Boxed => 0,
        Role::Guarding => p + 1,
    }
}

// Whether a variable with the number `v` is local to every and-box of the guard of the guarded goal `t`.
fn excuse(work: &[u8], t: usize, v: usize) -> bool
    requires { Laid work.now × (t ≤ 28672) }
    ensures { result ≡ excuses (links_of work.now) t v }
{
    if t == 0 {
        return false;
    }
    let l = check_vartables::link_get(work, t - 1);
    if l == 0 {
        return true;
    }
    v / 2 == l
}

// Whether the innermost of `k` open brackets holds locals.
fn naming(ws: &[u8], work: &[u8], k: usize) -> bool
    requires { Look (words ws.now) work.now k }
    ensures { result ≡ top_naming (words ws.now) (tops (stack_of work.now) k) }
{
    if k == 0 {
        return false;
    }
    let p = check_vartables::stack_get(work, k - 1);
    let w = mem_get::get(ws, p);
    check_roles::names(w)
}

// Whether the variable `x` may stand in the innermost of `k` open brackets.
pub fn allowed(ws: &[u8], work: &[u8], k: usize, x: Variable) -> bool
    requires { Look (words ws.now) work.now k × (x.0 < 65536) }
    ensures { result ≡ may_use (words ws.now) work.now k x.0 }
{
    if naming(ws, work, k) {
        return true;
    }
    let v = check_vartables::name_get(work, x.0);
    if v % 2 == 1 {
        return true;
    }
    let t = aim(ws, work, k);
    excuse(work, t, v)
}
