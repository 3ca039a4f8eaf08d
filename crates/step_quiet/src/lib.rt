// The quiet test on a walk over boxes, since any of its marks.
#![tactic(auto)]

ghost use Rattle.step_quiet.specs.Silence.{CanSilence, Silence};

use solve_quiet::Calm;

// Whether what was told since the mark below whose trail is `from` is quiet for what was told up to it, with the marked variables as
// locals. The slice is at the mark (`used`, `n`, `a`), and stays there.
pub fn silent(w: &mut [u8], used: usize, n: usize, a: usize, from: usize) -> bool
    requires { CanSilence w.old used n a from }
    ensures { Silence w.old used n a from w.new result }
{
    let c = work_quiet::quiet(w, used, n, a, from);
    match c {
        Calm::Silent => true,
        Calm::Loudly => false,
        Calm::NoSpace => false, // the trail has room
    }
}
