// A step on a store that holds a state: what it is refused with, or the store with the next configuration.
#![tactic(auto)]

ghost use Rattle.std.specs.Prelude.{IfOk, ◌≡◌, ◌+◌, ◌*◌, ◌<◌, ◌≤◌, length};
ghost use Rattle.mem_words.specs.Words.{words};
ghost use Rattle.mem_parts.specs.Parts.{cut, Outside};
ghost use Rattle.store_commit.specs.Settled.{CanSettle, Settled, Written};
ghost use Rattle.rule_build.specs.Built.{Built};
ghost use Rattle.rule_hidden.specs.Counting.{Capped};
ghost use Rattle.rule_rewrite.specs.Rewriting.{effect_words, fresh_words};
ghost use Rattle.rule_solve.specs.Idle.{Idle};
ghost use Rattle.step_meant.specs.Deciding.{step_of, StepDone, HoldsState};
ghost use Rattle.store_words.specs.Contexts.{place_at};
ghost use Rattle.rule_places.specs.Fingers.{Points};
ghost use Rattle.step_finger.specs.Following.{Follows};
ghost use Rattle.step_decide.specs.Decided.{Decided};
ghost use Rattle.step_parts.specs.Bounds.{CanBound, Bound};
ghost use Rattle.step_store.specs.Regions.{config_part, program_part, Counts, CanRewrite, WasBuilt};
ghost use Rattle.step_store.specs.Bounds.{AtMost, Carried};
ghost use Rattle.step_store.specs.Pointed.{Pointed};
ghost use Rattle.refusals.specs.Refusals.{refused_with};

use read_steps::Place;
use refusals::Refusal;
use rule_places::Finger;

// What is decided of the step, on the regions of the store.
fn decision(
    b: &[u8],
    w: &mut [u8],
    n: usize,
    m: usize,
    near: Finger,
    r: usize,
    p: Place,
    a: usize,
) -> Result<usize, Refusal>
    requires { Idle w.old × Counts b.now n m × Points (config_part b.now n) near }
    ensures { Decided (config_part b.now n) (program_part b.now m) (step_of r p.0 a) result × Idle w.new }
{
    let e = 159837 + 3 * n;
    let d = store_views::program_start(b);
    let f = d + 3 * m;
    step_decide::decide(&b[159837..e], &b[d..f], w, near, r, p, a)
}

// How many fresh variables the rule takes at `i`, or more than 65,536.
fn fresh(b: &[u8], n: usize, r: usize, i: usize) -> usize
    requires { (159837 + 3 * n ≤ 245853) × (245853 ≤ length b.now) × (i ≤ length (config_part b.now n)) }
    ensures { Capped (fresh_words (config_part b.now n) r i) result }
{
    let e = 159837 + 3 * n;
    rule_rewrite::fresh_for(&b[159837..e], r, i)
}

// The rule's effect, written to the part of `w` from `lo` on up to `hi`. The bounds are parameters and no constants: no large numeral
// then stands under what is put back.
fn rewrite_in(
    t: &[u8],
    d: &[u8],
    r: usize,
    i: usize,
    next: usize,
    w: &mut [u8],
    lo: usize,
    hi: usize,
) -> usize
    requires { CanRewrite (words t.now) r i next × (lo ≤ hi) × (hi ≤ length w.old) }
    ensures { Built (length (words (cut lo hi w.old))) (effect_words (words t.now) (words d.now) r i next) result (words (cut lo hi w.new)) × Outside lo hi w.old w.new }
{
    rule_rewrite::rewrite(t, d, r, i, next, &mut w[lo..hi])
}

// Builds the next configuration in the working slice.
fn build(b: &[u8], w: &mut [u8], n: usize, m: usize, next: usize, r: usize, i: usize) -> usize
    requires { Idle w.old × Counts b.now n m × CanRewrite (config_part b.now n) r i next }
    ensures { WasBuilt b.now n m next r i result w.new × Idle w.new }
{
    let e = 159837 + 3 * n;
    let d = store_views::program_start(b);
    let f = d + 3 * m;
    rewrite_in(&b[159837..e], &b[d..f], r, i, next, w, 401408, 487424)
}

// An upper bound of the parts of the `x` words that rule `r` built at `i` in the part of `w` from `lo` on up to `hi`; there were at most `u`.
fn bound_from(w: &[u8], lo: usize, hi: usize, x: usize, u: usize, r: usize, i: usize) -> usize
    requires { CanBound (cut lo hi w.now) x u r i × (lo ≤ hi) × (hi ≤ length w.now) }
    ensures { Bound (cut lo hi w.now) x u r i result }
{
    step_parts::bound(&w[lo..hi], x, u, r, i)
}

// Settles the `x` words that were built in the part of `w` from `lo` on up to `hi`, over the `n` words of the store.
fn settle_from(
    b: &mut [u8],
    w: &[u8],
    lo: usize,
    hi: usize,
    x: usize,
    next: usize,
    n: usize,
    most: usize,
) -> Result<usize, Refusal>
    requires { CanSettle b.old (cut lo hi w.now) x n most × (lo ≤ hi) × (hi ≤ length w.now) }
    ensures { Settled b.old (cut lo hi w.now) x next b.new (refused_with result) × IfOk result (Written (cut lo hi w.now) x) }
{
    store_commit::settle(b, &w[lo..hi], x, next, n, most)
}

// A finger in what rule `r` leads to from the place `p`, which stands at `i`.
fn finger_in(b: &[u8], n: usize, near: Finger, r: usize, i: usize, p: Place) -> Finger
    requires { (159837 + 3 * n ≤ 245853) × (245853 ≤ length b.now) × Points (config_part b.now n) near × (i ≡ place_at (config_part b.now n) p.0) × (i < length (config_part b.now n)) }
    ensures { Follows (config_part b.now n) r i result }
{
    let e = 159837 + 3 * n;
    step_finger::after(&b[159837..e], near, r, i, p)
}

// What a step that is accepted hands back: an upper bound of the parts of what it left, and a finger in it.
#[derive(Clone, Copy)]
pub struct Stepped {
    pub parts: usize,
    pub finger: Finger,
}

// Rule `r` at the place `p` with the argument `a`, on a store with at most `u` parts and a finger in its configuration. Refused with 10 to
// 15; else `b` is the store after the step.
pub fn step(
    b: &mut [u8],
    w: &mut [u8],
    u: usize,
    near: Finger,
    r: usize,
    p: Place,
    a: usize,
) -> Result<Stepped, Refusal>
    requires { (245853 ≤ length b.old) × Idle w.old × HoldsState b.old × AtMost b.old u × (u ≤ 2048) × Pointed b.old near }
    ensures { StepDone b.old (step_of r p.0 a) (refused_with result) b.new × Idle w.new × IfOk result (λ s. Carried b.new s.parts × Pointed b.new s.finger) }
{
    let n = store_views::config_count(b);
    let m = store_views::program_count(b);
    let next = store_views::next_number(b);
    let i = decision(b, w, n, m, near, r, p, a)?;
    let f = fresh(b, n, r, i);
    if 65535 - next < f {
        return Err(Refusal::NoFreshNumber); // too few numbers are left
    }
    let x = build(b, w, n, m, next, r, i);
    let q = bound_from(w, 401408, 487424, x, u, r, i);
    let finger = finger_in(b, n, near, r, i, p);
    let parts = settle_from(b, w, 401408, 487424, x, next + f, n, q)?;
    Ok(Stepped { parts, finger })
}
