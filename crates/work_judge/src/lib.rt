// Whether one store is quiet for one environment, both ranges of the same words, on the working slice.
#![tactic(auto)]

ghost use Rattle.mem_numbers.specs.Numbers.{shorts};
ghost use Rattle.mem_words.specs.Words.{words};
ghost use Rattle.work_tables.specs.Tables.{Laid};
ghost use Rattle.work_judge.specs.Judging.{CanAgainst, Against, Suit, Locals, Judgement};

use solve_quiet::Calm;
use solve_tells::Told;

// What a judgement says: words and slice do not fit, there is no room, the store is quiet, it is not. Four answers and no Result: C and
// the callers take each by itself.
#[derive(Clone, Copy)]
pub enum Judged {
    Unfit,
    NoSpace,
    Silent,
    Loudly,
}

// Tells the `len` words of `t` from `from` on to what was told up to the mark, and asks whether they are quiet for it.
pub fn against(
    t: &[u8],
    w: &mut [u8],
    used: usize,
    n: usize,
    a: usize,
    from: usize,
    len: usize,
) -> Judged
    requires { CanAgainst (words t.now) w.old used n a from len }
    ensures { Against (words t.now) w.old used n a from len result }
{
    if !work_quiet::satisfiable(w, used, a) {
        return Judged::Silent;
    }
    let o = work_walk::push(t, w, used, n, a, from, len);
    match o {
        Told::All(m, b) => {
            let k = used + len;
            let e = k + 3;
            let c = work_quiet::quiet(w, e, m, b, n);
            match c {
                Calm::Silent => Judged::Silent,
                Calm::Loudly => Judged::Loudly,
                Calm::NoSpace => Judged::NoSpace,
            }
        }
        Told::Failed(_m, _b) => Judged::Loudly,
        Told::NoRoom(_m, _b) => Judged::NoSpace,
    }
}

// Marks the variables whose numbers, of two bytes each, stand in `locals`, and no others.
pub fn mark_locals(locals: &[u8], w: &mut [u8])
    requires { Laid w.old }
    ensures { Locals w.old (shorts locals.now) w.new }
{
    mem_parts::zero(w, 335872, 401408);
    let k = mem_numbers::count::<2>(locals);
    for i in 0..k {
        let x = mem_numbers::get::<2>(locals, i);
        work_tables::local_put(w, x, 1);
    }
}

// Whether the words and the ranges fit the slice.
fn suit(t: &[u8], w: &[u8], from: usize, mid: usize, to: usize) -> bool
    ensures { Suit (words t.now) from mid to w.now result }
{
    let n = mem_words::count(t);
    if mid < from {
        return false;
    }
    if to < mid {
        return false;
    }
    if n < to {
        return false;
    }
    if w.len() < 524288 {
        return false;
    }
    if 24570 < to - from {
        return false;
    }
    solve_fits::vars_below(t, 65536)
}

// Whether the constraints in the words from `mid` on up to `to` are quiet, with the variables of `locals` as locals, for those from
// `from` on up to `mid`. The tables of the slice are made anew.
pub fn judge(t: &[u8], locals: &[u8], w: &mut [u8], from: usize, mid: usize, to: usize) -> Judged
    ensures { Judgement (words t.now) from mid to (shorts locals.now) w.old result }
{
    if !suit(t, w, from, mid, to) {
        return Judged::Unfit;
    }
    mem_parts::zero(w, 16384, 212992);
    mark_locals(locals, w);
    let len = mid - from;
    let o = work_walk::push(t, w, 0, 0, 0, from, len);
    match o {
        Told::All(n, a) => {
            let used = len + 3;
            let rest = to - mid;
            against(t, w, used, n, a, mid, rest)
        }
        Told::Failed(_n, _a) => Judged::Silent,
        Told::NoRoom(_n, _a) => Judged::NoSpace,
    }
}
