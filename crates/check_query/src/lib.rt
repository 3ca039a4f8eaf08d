// Whether the query variables are local, in the words of a configuration, to exactly the and-boxes that stand in or-boxes alone.
#![tactic(auto)]

ghost use Rattle.std.specs.Prelude.{◌≡◌, false, ◌<◌, ◌^◌, drop};
ghost use Rattle.constraint.specs.Solve.{elem};
ghost use Rattle.akl.specs.Base.{all, range};
ghost use Rattle.mem_words.specs.Words.{words};
ghost use Rattle.check_words.specs.Frees.{frees, is_and};
ghost use Rattle.check_words.specs.Query.{up, down, depth_after, locals_after, local_passes, opening_passes, word_passes, query_passed};

use mem_sorts::{Kind, Sort};
use mem_words::Word;

// The count of open brackets behind one that opens; `b` says whether it is an and-box's.
fn rise(b: bool, d: usize) -> usize
    requires { d < 2 ^ 63 }
    ensures { result ≡ up b d }
{
    if b {
        return d + 1;
    }
    if d == 0 {
        return 0;
    }
    d + 1
}

// The count of open brackets behind one that ends.
fn fall(d: usize) -> usize
    ensures { result ≡ down d }
{
    d.saturating_sub(1)
}

// The count of open brackets behind a word.
fn depth(d: usize, w: Word) -> usize
    requires { d < 2 ^ 63 }
    ensures { result ≡ depth_after d w }
{
    match w {
        Word::End => fall(d),
        Word::Place(k) => rise(check_kinds::boxes(k), d),
        Word::Inner(_) => rise(false, d),
        _ => d,
    }
}

// Whether a bracket that opens holds the locals of an inner and-box.
fn inner(d: usize, s: Sort) -> bool
    ensures { result ≡ locals_after false d (Word.Inner s) }
{
    check_kinds::lists(s) && 1 < d
}

// Whether the locals of an inner and-box are being passed behind a word.
fn passing(l: bool, d: usize, w: Word) -> bool
    ensures { result ≡ locals_after l d w }
{
    match w {
        Word::End | Word::Place(_) => false,
        Word::Inner(s) => inner(d, s),
        _ => l,
    }
}

// Whether the variable `x` is among those that the words from `i` on begin with.
fn holds(ws: &[u8], i: usize, x: usize) -> bool
    requires { x < 2 ^ 63 }
    ensures { result ≡ elem x (frees (drop i (words ws.now))) }
{
    let n = mem_words::count(ws);
    for j in i..n {
        let w = mem_get::get(ws, j);
        let Some(v) = check_kinds::variable(w) else {
            return false;
        };
        if v.0 == x {
            return true;
        }
    }
    false
}

// Whether each of `q` query variables is among those that the words from `i` on begin with.
fn holds_all(ws: &[u8], i: usize, q: usize) -> bool
    requires { q < 2 ^ 63 }
    ensures { result ≡ all (λ x. elem x (frees (drop i (words ws.now)))) (range 0 q) }
{
    for x in 0..q {
        if !holds(ws, i, x) {
            return false;
        }
    }
    true
}

// Whether a bracket may open, its words going on at `i`.
fn opening(ws: &[u8], q: usize, k: Kind, d: usize, i: usize) -> bool
    requires { (q < 2 ^ 63) × (i < 2 ^ 63) }
    ensures { result ≡ opening_passes q (is_and k) d (drop i (words ws.now)) }
{
    if !check_kinds::boxes(k) {
        return true;
    }
    if d != 0 {
        return true;
    }
    holds_all(ws, i + 1, q)
}

// Whether the variable `x` may stand; `l` says whether as a local of an inner and-box.
fn local(q: usize, l: bool, x: usize) -> bool
    ensures { result ≡ local_passes q l x }
{
    !l || q <= x
}

// Whether a word may stand, the words behind it going on at `i`.
fn passes(ws: &[u8], q: usize, l: bool, d: usize, w: Word, i: usize) -> bool
    requires { (q < 2 ^ 63) × (i < 2 ^ 63) }
    ensures { result ≡ word_passes q l d w (drop i (words ws.now)) }
{
    match w {
        Word::Free(x) => local(q, l, x),
        Word::Place(k) => opening(ws, q, k, d, i),
        _ => true,
    }
}

// Whether `q` query variables are local to exactly the and-boxes that stand in or-boxes alone.
pub fn query(ws: &[u8], q: usize) -> bool
    requires { q < 2 ^ 63 }
    ensures { result ≡ query_passed q (words ws.now) }
{
    let n = mem_words::count(ws);
    let mut l = false;
    let mut d = 0;
    for i in 0..n {
        let w = mem_get::get(ws, i);
        if !passes(ws, q, l, d, w, i + 1) {
            return false;
        }
        l = passing(l, d, w);
        d = depth(d, w);
    }
    true
}
