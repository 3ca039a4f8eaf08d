// Where a place stands in lent words, by its number.
#![tactic(auto)]

ghost use Rattle.std.specs.Prelude.{◌≡◌, ◌+◌, ◌*◌, ◌≤◌, length, drop};
ghost use Rattle.mem_words.specs.Words.{words, word};
ghost use Rattle.store_words.specs.Contexts.{place_at};
ghost use Rattle.mem_tallies.specs.Tallies.{if_first, Tallied};
ghost use Rattle.rule_places.specs.Finding.{begins, hits, passed};
ghost use Rattle.rule_places.specs.Pieces.{place_one, InPiece, AheadOf};
ghost use Rattle.rule_places.specs.Fingers.{Points};

use mem_words::Word;
use read_steps::Place;

// Whether a place begins with a word.
fn is_place(w: Word) -> bool
    ensures { result ≡ begins w }
{
    matches!(w, Word::Place(_))
}

// Whether it is the one that `p` more are before.
fn is_hit(w: Word, p: u64) -> bool
    ensures { result ≡ hits w p }
{
    p == 0 && is_place(w)
}

// How many more are before it behind a word.
fn passes(w: Word, p: u64) -> u64
    ensures { result ≡ passed w p }
{
    if is_place(w) { p.saturating_sub(1) } else { p }
}

// How far a search is, and how many places are still before the one that is looked for.
#[derive(Clone, Copy)]
pub struct Ahead {
    pub at: usize,
    pub left: u64,
}

// A position, and how many places begin before it: a search for a later place can begin there.
#[derive(Clone, Copy)]
pub struct Finger {
    pub at: usize,
    pub before: u64,
}

// 1 where the bytes are those of a word with which a place begins, and `m` marks the first of them. No branch stays in the machine's code.
fn one(m: u8, c: u8, lo: u8, hi: u8) -> u8
    ensures { (result ≡ if_first m (place_one (word c (lo + hi * 256)))) × (result ≤ 1) }
{
    if m == 0 {
        return 0;
    }
    if c != 4 {
        return 0; // another class
    }
    if hi != 0 {
        return 0; // no kind
    }
    if lo < 7 { 1 } else { 0 }
}

// How many places begin in the sixteen words from `i` on; `m` marks the bytes with which words begin.
fn places(ws: &[u8], i: usize, m: &[u8]) -> u8
    requires { InPiece ws.now i m.now }
    ensures { Tallied place_one ws.now i 48 result }
{
    let j = 3 * i;
    let mut s: u8 = 0;
    for k in 0..48 {
        let x = j + k;
        s += one(m[k], ws[x], ws[x + 1], ws[x + 2]);
    }
    s
}

// Where a search for the place `p` begins: at the finger, unless the place is before it.
fn begin(ws: &[u8], f: Finger, p: u64) -> Ahead
    requires { Points (words ws.now) f }
    ensures { AheadOf (words ws.now) (place_at (words ws.now) p) result }
{
    if p < f.before {
        return Ahead { at: 0, left: p };
    }
    Ahead {
        at: f.at,
        left: p - f.before,
    }
}

// Passes over pieces of sixteen words from `at` on, as long as the place that `p` more are before is behind them.
fn front(ws: &[u8], at: usize, p: u64) -> Ahead
    requires { at ≤ length (words ws.now) }
    ensures { AheadOf (words ws.now) (at + place_at (drop at (words ws.now)) p) result }
{
    let n = mem_words::count(ws);
    let m = mem_tallies::first_bytes();
    let mut i = at;
    let mut left = p;
    // A `while`: where the pieces end is handed back.
    while 17 <= n - i {
        let s = places(ws, i, &m) as u64;
        if left < s {
            return Ahead { at: i, left: left };
        }
        left -= s;
        i += 16;
    }
    Ahead { at: i, left: left }
}

// Where the place stands, looked for from the finger on; the number of words if there is none of that number.
pub fn position_from(ws: &[u8], f: Finger, p: Place) -> usize
    requires { Points (words ws.now) f }
    ensures { (result ≡ place_at (words ws.now) p.0) × (result ≤ length (words ws.now)) }
{
    let n = mem_words::count(ws);
    let b = begin(ws, f, p.0);
    let a = front(ws, b.at, b.left);
    let mut left = a.left;
    for i in a.at..n {
        let w = mem_get::get(ws, i);
        if is_hit(w, left) {
            return i;
        }
        left = passes(w, left);
    }
    n
}

// The same from the first word on.
pub fn position_of(ws: &[u8], p: Place) -> usize
    ensures { (result ≡ place_at (words ws.now) p.0) × (result ≤ length (words ws.now)) }
{
    position_from(ws, Finger { at: 0, before: 0 }, p)
}
