// The stores of the and-boxes around a position of a configuration, told to the solver on top of a mark.
#![tactic(auto)]

ghost use Rattle.std.specs.Prelude.{[], ◌≤◌, length};
ghost use Rattle.mem_words.specs.Words.{words};
ghost use Rattle.work_enter.specs.Enters.{CanEnter};
ghost use Rattle.rule_ranges.specs.Ranges.{and_its, ranges_from};
ghost use Rattle.rule_tells.specs.Telling.{Counted, CanTellAll, ToldAll};

use mem_sorts::Kind;
use solve_tells::Told;

// All stores were told, and these are the used words of the log, the length of the trail and the applications; or they have no
// solution with what was told before, and this is the length of the trail, from which what was told can be taken back.
#[derive(Clone, Copy)]
pub enum Around {
    All(usize, usize, usize),
    Failed(usize),
}

// Pushes the `len` words of `t` from `from` on and tests them, as `work_enter` does, and says how many positions they took.
fn deeper(t: &[u8], w: &mut [u8], used: usize, n: usize, a: usize, from: usize, len: usize) -> Told
    requires { CanEnter (words t.now) w.old used n a from len }
    ensures { Counted (words t.now) w.old used n a from len w.new result }
{
    let o = work_walk::push(t, w, used, n, a, from, len);
    match o {
        Told::All(m, b) => {
            let k = used + len;
            let e = k + 3;
            if work_since::acyclic_since(w, e, m, b, n) {
                return Told::All(m, b);
            }
            Told::Failed(m, b)
        }
        Told::Failed(m, b) => Told::Failed(m, b),
        Told::NoRoom(m, b) => Told::NoRoom(m, b),
    }
}

// Tells the store of the bracket at `o` if it is an and-box.
fn tell_box(t: &[u8], w: &mut [u8], o: usize, used: usize, n: usize, a: usize) -> Around
    requires { (o ≤ length (words t.now)) × CanTellAll (words t.now) w.old (and_its (words t.now) o []) used n a }
    ensures { ToldAll (words t.now) w.old (and_its (words t.now) o []) used n a w.new result }
{
    if !rule_shapes::is_kind(t, o, Kind::And) {
        return Around::All(used, n, a);
    }
    let u = rule_close::end_of(t, o + 1);
    let e = rule_close::end_of(t, u + 1);
    let from = u + 2;
    let len = e - from;
    let r = deeper(t, w, used, n, a, from, len);
    match r {
        Told::All(m, b) => {
            let k = used + len;
            Around::All(k + 3, m, b)
        }
        Told::Failed(m, _b) => Around::Failed(m),
        Told::NoRoom(m, _b) => Around::Failed(m),
    }
}

// Tells the stores of the and-boxes that are open at `i` and begin at `s` or behind it, the innermost first.
pub fn tell_from(
    t: &[u8],
    w: &mut [u8],
    s: usize,
    i: usize,
    used: usize,
    n: usize,
    a: usize,
) -> Around
    requires { (i ≤ length (words t.now)) × CanTellAll (words t.now) w.old (ranges_from (words t.now) s i) used n a }
    ensures { ToldAll (words t.now) w.old (ranges_from (words t.now) s i) used n a w.new result }
{
    let mut j = i;
    let mut u = used;
    let mut m = n;
    let mut b = a;
    while s < j {
        let o = rule_around::opening_of(t, j);
        if o < s {
            return Around::All(u, m, b);
        }
        let r = tell_box(t, w, o, u, m, b);
        match r {
            Around::All(x, y, z) => {
                u = x;
                m = y;
                b = z;
                j = o;
            }
            Around::Failed(k) => {
                return Around::Failed(k);
            }
        }
    }
    Around::All(u, m, b)
}
