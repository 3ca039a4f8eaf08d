// Tests of the box at a position: solved, failure, or an or-box with parts.
#![tactic(auto)]

ghost use Rattle.std.specs.Prelude.{◌≡◌, ◌+◌, ◌≤◌, length};
ghost use Rattle.mem_words.specs.Words.{words};
ghost use Rattle.rule_effects.specs.Conditions.{solved_at, failure_at, parts_at};

use mem_sorts::Kind;

// Whether the box at `g` is a solved and-box.
pub fn solved(ws: &[u8], g: usize) -> bool
    requires { g ≤ length (words ws.now) + 2 }
    ensures { result ≡ solved_at (words ws.now) g }
{
    let c = mem_words::count(ws);
    if rule_shapes::is_kind(ws, g, Kind::And) {
        let u = rule_close::end_of(ws, g + 1);
        let s = rule_close::end_of(ws, u + 1);
        return rule_shapes::ends(ws, s + 1);
    }
    false // no and-box
}

// Whether the box at `g` is failure.
pub fn failure(ws: &[u8], g: usize) -> bool
    requires { g ≤ length (words ws.now) + 2 }
    ensures { result ≡ failure_at (words ws.now) g }
{
    let c = mem_words::count(ws);
    if rule_shapes::is_kind(ws, g, Kind::Or) {
        return rule_shapes::ends(ws, g + 1);
    }
    false // no or-box
}

// Whether the box at `g` is an or-box that is not empty.
pub fn has_parts(ws: &[u8], g: usize) -> bool
    requires { g ≤ length (words ws.now) + 2 }
    ensures { result ≡ parts_at (words ws.now) g }
{
    let c = mem_words::count(ws);
    if rule_shapes::is_kind(ws, g, Kind::Or) {
        if rule_shapes::ends(ws, g + 1) {
            return false; // empty
        }
        return true; // not empty
    }
    false
}
