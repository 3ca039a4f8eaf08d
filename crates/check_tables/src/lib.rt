// What the tables of the working slice say of a name's number.
#![tactic(auto)]

ghost use Rattle.std.specs.Prelude.{◌≡◌, ◌≤◌};
ghost use Rattle.check_tables.specs.Tables.{kinds_of, arities_of, Tabled, bit, con_of, pred_of, def_of};

// Bit `k` of `a`.
fn bit(a: usize, k: usize) -> usize
    requires { k ≤ 8 }
    ensures { result ≡ bit k a }
{
    (a >> k) % 2
}

// Whether `i` is the number of a constructor, of `m` names.
pub fn is_con(w: &[u8], m: usize, i: usize) -> bool
    requires { Tabled w.now m }
    ensures { result ≡ con_of m (kinds_of w.now) i }
{
    if i < m {
        let b = mem_parts::get1(w, 0, 20490, i);
        return b % 2 == 1;
    }
    false // no such name
}

// Whether `i` is the number of a predicate's name.
pub fn is_pred(w: &[u8], m: usize, i: usize) -> bool
    requires { Tabled w.now m }
    ensures { result ≡ pred_of m (kinds_of w.now) i }
{
    if i < m {
        let b = mem_parts::get1(w, 0, 20490, i);
        return b / 2 % 2 == 1;
    }
    false
}

// Whether the name with the number `p` has a definition with `k` parameters.
pub fn is_def(w: &[u8], m: usize, p: usize, k: usize) -> bool
    requires { Tabled w.now m }
    ensures { result ≡ def_of m (arities_of w.now) p k }
{
    if p < m {
        if 8 < k {
            return false;
        }
        let a = mem_parts::get::<2>(w, 20992, 61970, p);
        let b = bit(a, k);
        return b == 1;
    }
    false
}
