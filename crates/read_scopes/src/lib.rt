// What a variable's name stands for. Names are numbers; the name of a token's code is the code / 256. `binds` has two bytes for
// each name: 0 where it is not bound, else 1 + the position of its last occurrence among the names bound, outermost first.
#![tactic(auto)]

ghost use Rattle.std.specs.Prelude.{◌≡◌, ◌/◌, ◌<◌, length, get_or};
ghost use Rattle.mem_numbers.specs.Numbers.{shorts, triples};
ghost use Rattle.read_scopes.specs.Scopes.{CanEnter, Entered, CanLeave, Left};
ghost use Rattle.read_scopes.specs.TheirContracts.{CanBind, BindTo, CanUnbind, Unbound};

// The names of a list are bound, and are apart or one is there twice; or there was no room to save what was bound.
// An enum of its own and not a Result: where a name is there twice, all are bound.
#[derive(Clone, Copy, Debug, PartialEq, Eq)]
pub enum Binding {
    Apart,
    Twice,
    Full,
}

// The name of the token at `i`.
fn name_at(codes: &[u8], i: usize) -> usize
    requires { i < length (triples codes.now) }
    ensures { result ≡ get_or (triples codes.now) i 0 / 256 }
{
    mem_numbers::get::<3>(codes, i) / 256
}

// Gives the name at `at` the value `v`. Its old value is saved at `k`, and handed back.
fn enter(codes: &[u8], at: usize, binds: &mut [u8], saves: &mut [u8], k: usize, v: usize) -> usize
    requires { CanEnter (triples codes.now) at (shorts binds.old) (shorts saves.old) k v }
    ensures { Entered (triples codes.now) at (shorts binds.old) (shorts saves.old) k v (shorts binds.new) (shorts saves.new) result }
{
    let id = name_at(codes, at);
    let old = mem_numbers::get::<2>(binds, id);
    mem_numbers::put::<2>(saves, k, old);
    mem_numbers::put::<2>(binds, id, v);
    old
}

// Gives the name at `at` the value saved at `k`.
fn leave(codes: &[u8], at: usize, binds: &mut [u8], saves: &[u8], k: usize)
    requires { CanLeave (triples codes.now) at (shorts binds.old) (shorts saves.now) k }
    ensures { Left (triples codes.now) at (shorts binds.old) (shorts saves.now) k (shorts binds.new) }
{
    let id = name_at(codes, at);
    let old = mem_numbers::get::<2>(saves, k);
    mem_numbers::put::<2>(binds, id, old);
}

// Binds the `count` names at every second token from `first` on, behind `level` names that are bound already. The values that
// they had are saved from `n` on.
pub fn bind(
    codes: &[u8],
    first: usize,
    count: usize,
    binds: &mut [u8],
    saves: &mut [u8],
    n: usize,
    level: usize,
) -> Binding
    requires { CanBind (triples codes.now) first count (shorts binds.old) level }
    ensures { BindTo (triples codes.now) first count (shorts binds.old) (shorts saves.old) n level (shorts binds.new) (shorts saves.new) result }
{
    let room = mem_numbers::count::<2>(saves);
    if room < n {
        return Binding::Full;
    }
    if room - n < count {
        return Binding::Full;
    }
    let mut twice = false;
    for j in 0..count {
        let old = enter(codes, first + 2 * j, binds, saves, n + j, level + j + 1);
        if level < old {
            twice = true;
        }
    }
    if twice {
        return Binding::Twice;
    }
    Binding::Apart
}

// Takes back what `bind` did, the last name first.
pub fn unbind(codes: &[u8], first: usize, count: usize, binds: &mut [u8], saves: &[u8], n: usize)
    requires { CanUnbind (triples codes.now) first count (shorts binds.old) (shorts saves.now) n }
    ensures { Unbound (triples codes.now) first count (shorts binds.old) (shorts saves.now) n (shorts binds.new) }
{
    for j in (0..count).rev() {
        leave(codes, first + 2 * j, binds, saves, n + j);
    }
}
