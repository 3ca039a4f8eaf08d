// Whether the bytes of a range are zero.
#![tactic(auto)]

ghost use Rattle.std.specs.Prelude.{◌-◌, ◌≤◌};
ghost use Rattle.mem_numbers.specs.Decides.{Decides};
ghost use Rattle.check_zeros.specs.Zeros.{Zeros, Within, Tallied, ZeroTo, OneIf};

// One where a byte is not zero.
fn nonzero(x: u8) -> u8
    ensures { OneIf x result }
{
    u8::from(x != 0)
}

// How many of the 128 bytes from `i` on are not zero. No branch, so that it is done by vectors.
fn tally(b: &[u8], i: usize) -> u8
    requires { Within b.now i 128 }
    ensures { Tallied b.now i 128 result }
{
    let mut s: u8 = 0;
    for k in 0..128 {
        s += nonzero(b[i + k]);
    }
    s
}

// How far the bytes from `a` on up to `e` are surely zero: whole pieces of 128.
fn front(b: &[u8], a: usize, e: usize) -> usize
    requires { Within b.now a (e - a) × (a ≤ e) }
    ensures { ZeroTo b.now a e result }
{
    // By 128 and not by one: `all` on the bytes takes fifteen times as long.
    let mut i = a;
    while 128 <= e - i {
        if tally(b, i) != 0 {
            return i;
        }
        i += 128;
    }
    i
}

// Whether the bytes from `a` on up to `e` are zero.
pub fn zeros(b: &[u8], a: usize, e: usize) -> bool
    requires { Within b.now a (e - a) × (a ≤ e) }
    ensures { Decides (Zeros b.now a e) result }
{
    let start = front(b, a, e);
    for i in start..e {
        if b[i] != 0 {
            return false;
        }
    }
    true
}
