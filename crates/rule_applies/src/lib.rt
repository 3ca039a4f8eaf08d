// What the shape of a configuration decides of a rule's condition, and what it leaves to the solver.
#![tactic(auto)]

ghost use Rattle.std.specs.Prelude.{◌≡◌, ◌≤◌, length};
ghost use Rattle.mem_words.specs.Words.{words};
ghost use Rattle.rule_applies.specs.Asking.{asks_6, asks_7, asks_8, asks_10, asks_11, asks_12, asks_13, asks_in};

use mem_sorts::Kind;

// The rule does not apply, it applies, or it asks the solver about the and-box at a position: it applies if the box's store is
// quiet, or if the store and its environment share no solution.
#[derive(Clone, Copy)]
pub enum Asks {
    Never,
    Always,
    Quiet(usize),
    Satisfiable(usize),
}

// 6: one guarded goal, its guard solved; with an operator other than `?` the guard must be quiet.
fn promotion(ws: &[u8], i: usize) -> Asks
    requires { i ≤ length (words ws.now) }
    ensures { result ≡ asks_6 (words ws.now) i }
{
    let c = mem_words::count(ws);
    if rule_beside::has_one(ws, i) {
        if rule_guards::solved(ws, i + 2) {
            if rule_shapes::is_kind(ws, i, Kind::Wait) {
                return Asks::Always; // promotion of a `?`
            }
            return Asks::Quiet(i + 2);
        }
        return Asks::Never;
    }
    Asks::Never // not one
}

// 7: operator `->`, the guard solved and quiet, something to its right.
fn condition(ws: &[u8], i: usize) -> Asks
    requires { i ≤ length (words ws.now) }
    ensures { result ≡ asks_7 (words ws.now) i }
{
    let c = mem_words::count(ws);
    let a = rule_around::opening_of(ws, i);
    if rule_shapes::is_kind(ws, a, Kind::Cond) {
        if rule_guards::solved(ws, i + 1) {
            if rule_beside::has_right(ws, i) {
                return Asks::Quiet(i + 1); // condition
            }
            return Asks::Never;
        }
        return Asks::Never;
    }
    Asks::Never
}

// 8: operator `|`, the guard solved and quiet, another beside it.
fn commitment(ws: &[u8], i: usize) -> Asks
    requires { i ≤ length (words ws.now) }
    ensures { result ≡ asks_8 (words ws.now) i }
{
    let c = mem_words::count(ws);
    let a = rule_around::opening_of(ws, i);
    if rule_shapes::is_kind(ws, a, Kind::Commit) {
        if rule_guards::solved(ws, i + 1) {
            if rule_beside::has_left(ws, i) {
                return Asks::Quiet(i + 1);
            }
            if rule_beside::has_right(ws, i) {
                return Asks::Quiet(i + 1);
            }
            return Asks::Never; // alone
        }
        return Asks::Never;
    }
    Asks::Never
}

// 10: no guarded goal.
fn goal_failure(ws: &[u8], i: usize) -> Asks
    requires { i ≤ length (words ws.now) }
    ensures { result ≡ asks_10 (words ws.now) i }
{
    let c = mem_words::count(ws);
    if rule_shapes::ends(ws, i + 1) {
        return Asks::Always; // empty
    }
    Asks::Never
}

// 11: the guard is failure.
fn guard_failure(ws: &[u8], i: usize) -> Asks
    requires { i ≤ length (words ws.now) }
    ensures { result ≡ asks_11 (words ws.now) i }
{
    let c = mem_words::count(ws);
    if rule_guards::failure(ws, i + 1) {
        return Asks::Always;
    }
    Asks::Never // no failure
}

// 12: operator `?`, two or more guarded goals, the first solved.
fn splitting(ws: &[u8], i: usize) -> Asks
    requires { i ≤ length (words ws.now) }
    ensures { result ≡ asks_12 (words ws.now) i }
{
    let c = mem_words::count(ws);
    if rule_shapes::is_kind(ws, i, Kind::Wait) {
        if rule_beside::has_more(ws, i) {
            if rule_guards::solved(ws, i + 2) {
                return Asks::Always; // splitting
            }
            return Asks::Never;
        }
        return Asks::Never;
    }
    Asks::Never
}

// 13: the guard is an or-box that is not empty.
fn distribution(ws: &[u8], i: usize) -> Asks
    requires { i ≤ length (words ws.now) }
    ensures { result ≡ asks_13 (words ws.now) i }
{
    let c = mem_words::count(ws);
    if rule_guards::has_parts(ws, i + 1) {
        return Asks::Always; // distribution
    }
    Asks::Never
}

// What the rule of number `r` asks at the place at `i`, of the kind that the rule takes.
pub fn asks_at(ws: &[u8], r: usize, i: usize) -> Asks
    requires { i ≤ length (words ws.now) }
    ensures { result ≡ asks_in (words ws.now) i r }
{
    match r {
        1 => Asks::Always,
        2 => Asks::Always,
        3 => Asks::Always,
        4 => Asks::Always,
        5 => Asks::Always,
        6 => promotion(ws, i),
        7 => condition(ws, i),
        8 => commitment(ws, i),
        9 => Asks::Satisfiable(i),
        10 => goal_failure(ws, i),
        11 => guard_failure(ws, i),
        12 => splitting(ws, i),
        13 => distribution(ws, i),
        14 => Asks::Always,
        _ => Asks::Never,
    }
}
