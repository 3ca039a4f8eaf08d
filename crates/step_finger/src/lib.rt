// A finger kept over a step: where the search for the next step's place can begin.
#![tactic(auto)]

ghost use Rattle.std.specs.Prelude.{◌≡◌, true, ◌≤◌, ◌<◌, length};
ghost use Rattle.mem_words.specs.Words.{words};
ghost use Rattle.mem_parts.specs.Parts.{cut};
ghost use Rattle.store_words.specs.Contexts.{place_at};
ghost use Rattle.rule_words.specs.Scans.{around};
ghost use Rattle.rule_places.specs.Fingers.{Points};
ghost use Rattle.step_finger.specs.Following.{KeepsFront, Stays, Follows};

use read_steps::Place;
use rule_places::Finger;

// Whether it is known that rule `r` leaves the words before its place as they are.
fn keeps(r: usize) -> bool
    ensures { result ≡ true → KeepsFront r }
{
    if r == 2 {
        return true; // a definition in place of an atom
    }
    if r == 3 {
        return true; // two members in place of one
    }
    if r == 5 {
        return true; // a choice-box in place of a statement
    }
    if r == 7 {
        return true; // what stands behind a guarded goal goes
    }
    if r == 9 {
        return true; // failure in place of an and-box
    }
    if r == 11 {
        return true; // a guarded goal goes
    }
    if r == 13 {
        return true; // a guarded goal becomes several
    }
    if r == 14 {
        return true; // the goals of an or-box in place of it
    }
    false
}

// The bracket that is open at the end of the words in the bytes from `a` on up to `z`.
fn open_in(t: &[u8], a: usize, z: usize, n: usize) -> usize
    requires { (a ≤ z) × (z ≤ length t.now) × (n ≤ length (words (cut a z t.now))) }
    ensures { result ≡ around (words (cut a z t.now)) n }
{
    rule_around::opening_of(&t[a..z], n)
}

// Whether it is known that the bracket around `i` opens at `q` or behind it. Only the words from `q` on are looked at.
fn opens_behind(t: &[u8], q: usize, i: usize) -> bool
    requires { (q ≤ i) × (i ≤ length (words t.now)) }
    ensures { result ≡ true → q ≤ around (words t.now) i }
{
    if open_in(t, 3 * q, 3 * i, i - q) == 0 {
        return false; // it opens at `q` itself or before it: these are not told apart
    }
    true
}

// Whether it is known that the words before a finger at `q` stay. One behind the place at `i`, or far before it, is given up. Every rule
// leaves the words before the bracket around its place as they are.
fn stays(t: &[u8], q: usize, r: usize, i: usize) -> bool
    requires { i ≤ length (words t.now) }
    ensures { result ≡ true → Stays (words t.now) r i q }
{
    if i < q {
        return false;
    }
    if 64 < i - q {
        return false; // far: one at the place is better, and to look back so far costs too much
    }
    if keeps(r) {
        return true;
    }
    opens_behind(t, q, i)
}

// A finger in what rule `r` leads to from the place `p`, which stands at `i`: the one that there was, where it stays; else one at the place,
// where the rule leaves the words before it; else one at the first word.
pub fn after(t: &[u8], near: Finger, r: usize, i: usize, p: Place) -> Finger
    requires { Points (words t.now) near × (i ≡ place_at (words t.now) p.0) × (i < length (words t.now)) }
    ensures { Follows (words t.now) r i result }
{
    if stays(t, near.at, r, i) {
        return near;
    }
    if keeps(r) {
        return Finger { at: i, before: p.0 };
    }
    Finger { at: 0, before: 0 }
}
