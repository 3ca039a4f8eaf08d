// One more definition in the table of arities.
#![tactic(auto)]

ghost use Rattle.std.specs.Prelude.{◌≡◌, ◌≤◌};
ghost use Rattle.check_tables.specs.Tables.{Tabled};
ghost use Rattle.check_defines.specs.Bits.{power};
ghost use Rattle.check_defines.specs.Defining.{Defines};

// The number with bit `k` alone.
fn power(k: usize) -> usize
    requires { k ≤ 8 }
    ensures { result ≡ power k }
{
    1 << k
}

// Marks a definition of the name `p` with `k` parameters, `c` having been read before. False if there is none to be marked: no
// predicate's name, too many parameters or definitions, or defined already.
pub fn define(w: &mut [u8], m: usize, p: usize, k: usize, c: usize) -> bool
    requires { Tabled w.old m }
    ensures { Defines w.old m p k c w.new result }
{
    let known = check_tables::is_pred(w, m, p);
    if !known {
        return false;
    }
    if 8 < k {
        return false;
    }
    if 127 < c {
        return false;
    }
    let again = check_tables::is_def(w, m, p, k);
    if again {
        return false;
    }
    let a = mem_parts::get::<2>(w, 20992, 61970, p);
    let q = power(k);
    mem_parts::put::<2>(w, 20992, 61970, p, a + q);
    true
}
