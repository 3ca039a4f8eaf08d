// The body of a program atom in the lent words of a program.
#![tactic(auto)]

ghost use Rattle.std.specs.Prelude.{◌≡◌, ◌+◌, ◌-◌, ◌≤◌, length};
ghost use Rattle.mem_words.specs.Words.{words};
ghost use Rattle.rule_effects.specs.Effects.{heads_match, body_of};
ghost use Rattle.rule_bodies.specs.Search.{left};

// Whether the definition at `j` has the name of number `p` and `n` parameters.
fn is_head(ps: &[u8], j: usize, p: usize, n: usize) -> bool
    requires { j ≤ length (words ps.now) }
    ensures { result ≡ heads_match (words ps.now) j p n }
{
    let c = mem_words::count(ps);
    let x = rule_number::number_at(ps, j);
    if x == p {
        let y = rule_number::number_at(ps, j + 1);
        if y == n {
            return true;
        }
        return false;
    }
    false
}

// Where its body begins; the number of words if there is no such definition.
fn search(ps: &[u8], p: usize, n: usize) -> usize
    ensures { (result ≡ left (words ps.now) 0 p n) × (result ≤ length (words ps.now) + 1) }
{
    let c = mem_words::count(ps);
    let mut j = 0;
    while j < c {
        if is_head(ps, j, p, n) {
            return j + 2;
        }
        let e = rule_close::end_of(ps, j + 2);
        j = e + 1;
    }
    c
}

fn less(a: usize, b: usize) -> usize
    ensures { result ≡ a - b }
{
    if a < b { 0 } else { a - b }
}

// Where the body of the program atom at `i` begins in `ps`; the number of its words if it has no definition.
pub fn body_at(ws: &[u8], ps: &[u8], i: usize) -> usize
    requires { i ≤ length (words ws.now) }
    ensures { (result ≡ body_of (words ws.now) (words ps.now) i) × (result ≤ length (words ps.now) + 1) }
{
    let c = mem_words::count(ws);
    let p = rule_number::number_at(ws, i + 2);
    let v = rule_close::end_of(ws, i + 1);
    let n = less(v, i + 3);
    search(ps, p, n)
}
