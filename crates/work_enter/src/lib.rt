// A walk goes one box deeper: its store is pushed, and tested for a cycle since the mark before it.
#![tactic(auto)]

ghost use Rattle.mem_words.specs.Words.{words};
ghost use Rattle.work_enter.specs.Enters.{CanEnter, Entered};

use solve_tells::Told;

// Pushes the `len` words of `t` from `from` on: all was told and has a solution with what was told before, if that had one; or both have
// none; or there was no room.
pub fn enter(
    t: &[u8],
    w: &mut [u8],
    used: usize,
    n: usize,
    a: usize,
    from: usize,
    len: usize,
) -> Told
    requires { CanEnter (words t.now) w.old used n a from len }
    ensures { Entered (words t.now) w.old used n a from len w.new result }
{
    let o = work_walk::push(t, w, used, n, a, from, len);
    match o {
        Told::All(m, b) => {
            let k = used + len;
            let e = k + 3;
            if work_since::acyclic_since(w, e, m, b, n) {
                return Told::All(m, b);
            }
            Told::Failed(m, b)
        }
        Told::Failed(m, b) => Told::Failed(m, b),
        Told::NoRoom(m, b) => Told::NoRoom(m, b),
    }
}
