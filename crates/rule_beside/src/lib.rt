// Tests of what stands beside a guarded goal, and how many a choice-box has.
#![tactic(auto)]

ghost use Rattle.std.specs.Prelude.{◌≡◌, ◌≤◌, length};
ghost use Rattle.mem_words.specs.Words.{words};
ghost use Rattle.rule_effects.specs.Conditions.{right_at, left_at, one_at, more_at};

// Whether something stands to the right of the guarded goal at `i`.
pub fn has_right(ws: &[u8], i: usize) -> bool
    requires { i ≤ length (words ws.now) }
    ensures { result ≡ right_at (words ws.now) i }
{
    let c = mem_words::count(ws);
    let e = rule_close::end_of(ws, i);
    if rule_shapes::ends(ws, e + 1) {
        return false; // the last
    }
    true
}

// Whether something stands to its left.
pub fn has_left(ws: &[u8], i: usize) -> bool
    requires { i ≤ length (words ws.now) }
    ensures { result ≡ left_at (words ws.now) i }
{
    let c = mem_words::count(ws);
    let a = rule_around::opening_of(ws, i);
    if a + 1 == i {
        return false; // the first
    }
    true
}

// Whether the choice-box at `i` has one guarded goal.
pub fn has_one(ws: &[u8], i: usize) -> bool
    requires { i ≤ length (words ws.now) }
    ensures { result ≡ one_at (words ws.now) i }
{
    let c = mem_words::count(ws);
    if rule_shapes::ends(ws, i + 1) {
        return false; // none
    }
    let e = rule_close::end_of(ws, i + 1);
    rule_shapes::ends(ws, e + 1) // behind the first
}

// Whether it has two or more.
pub fn has_more(ws: &[u8], i: usize) -> bool
    requires { i ≤ length (words ws.now) }
    ensures { result ≡ more_at (words ws.now) i }
{
    let c = mem_words::count(ws);
    if rule_shapes::ends(ws, i + 1) {
        return false; // not one
    }
    let e = rule_close::end_of(ws, i + 1);
    if rule_shapes::ends(ws, e + 1) {
        return false; // only one
    }
    true
}
