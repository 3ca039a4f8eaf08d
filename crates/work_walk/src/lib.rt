// What a walk over nested boxes does to the tables of the working slice: a box's store is appended to the log and told from there.
#![tactic(auto)]

ghost use Rattle.mem_words.specs.Words.{words};
ghost use Rattle.work_walk.specs.Pushes.{CanPush, Pushed};

use solve_tells::Told;

// Tells the constraints that begin in the `len` words of `t` from `from` on, from their copy in the log.
pub fn push(
    t: &[u8],
    w: &mut [u8],
    used: usize,
    n: usize,
    a: usize,
    from: usize,
    len: usize,
) -> Told
    requires { CanPush (words t.now) w.old used n a from len }
    ensures { Pushed (words t.now) w.old used n a from len w.new result }
{
    work_log::append(t, w, used, from, len);
    let k = used + len;
    let e = k + 3;
    work_ranges::tell(w, e, n, a, used, k)
}
