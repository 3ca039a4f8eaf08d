// The parts of a configuration, or of a statement, counted from its words.
#![tactic(auto)]

ghost use Rattle.std.specs.Prelude.{◌≡◌, ◌+◌, ◌*◌, ◌≤◌, length};
ghost use Rattle.mem_words.specs.Words.{words, word, place_word, inner_word};
ghost use Rattle.mem_tallies.specs.Tallies.{if_first};
ghost use Rattle.store_parts.specs.declared.Among.TheVariants.{Others};
ghost use Rattle.store_parts.specs.Counting.{kind_parts, sort_parts, behind, free_parts, number_parts, word_parts, behind_free, behind_word, parts_in};
ghost use Rattle.store_parts.specs.Counts.{CanRun, Ran};
ghost use Rattle.store_parts.specs.Pieces.{odd_one, InPiece, PlainTo};

use mem_sorts::{Kind, Sort};
use mem_words::Word;

// What a word stands among: locals, where each variable is a part; behind the first word of a hiding or clause, where a number is
// that of its hidden variables; or others.
#[derive(Clone, Copy)]
pub enum Among {
    Others,
    Variables,
    Hidden,
}

fn kind_parts(k: Kind) -> usize
    ensures { result ≡ kind_parts k }
{
    match k {
        Kind::Member => 0, // its statement counts
        _ => 1,
    }
}

fn sort_parts(s: Sort) -> usize
    ensures { result ≡ sort_parts s }
{
    match s {
        Sort::Locals | Sort::Store => 0,
        _ => 1,
    }
}

fn behind(s: Sort) -> Among
    ensures { result ≡ behind s }
{
    match s {
        Sort::Locals => Among::Variables,
        Sort::Hide => Among::Hidden,
        Sort::Clause => Among::Hidden, // a clause hides variables as a hiding does
        _ => Among::Others,
    }
}

fn free_parts(m: Among) -> usize
    ensures { result ≡ free_parts m }
{
    match m {
        Among::Variables => 1,
        _ => 0,
    }
}

fn number_parts(m: Among, n: usize) -> usize
    ensures { result ≡ number_parts m n }
{
    match m {
        Among::Hidden => n,
        _ => 0,
    }
}

fn word_parts(m: Among, w: Word) -> usize
    ensures { result ≡ word_parts m w }
{
    match w {
        Word::Free(_) => free_parts(m),
        Word::Num(n) => number_parts(m, n),
        Word::Place(k) => kind_parts(k),
        Word::Inner(s) => sort_parts(s),
        _ => 0,
    }
}

fn behind_free(m: Among) -> Among
    ensures { result ≡ behind_free m }
{
    match m {
        Among::Variables => Among::Variables,
        _ => Among::Others,
    }
}

fn behind_word(m: Among, w: Word) -> Among
    ensures { result ≡ behind_word m w }
{
    match w {
        Word::Free(_) => behind_free(m),
        Word::Inner(s) => behind(s),
        _ => Among::Others,
    }
}

// What was counted in a run of words: how many parts, and what the word behind the run stands among.
#[derive(Clone, Copy)]
pub struct Count {
    pub among: Among,
    pub parts: usize,
}

// The same word by word, from `i` on up to `e`; the first stands among `m`.
fn run(ws: &[u8], i: usize, e: usize, m: Among) -> Count
    requires { CanRun (words ws.now) i e }
    ensures { Ran (words ws.now) m i e result }
{
    let mut a = m;
    let mut r = 0;
    for j in i..e {
        let w = mem_get::get(ws, j);
        r += word_parts(a, w);
        a = behind_word(a, w);
    }
    Count { among: a, parts: r }
}

fn place_part(v: u8) -> u8
    ensures { (result ≡ word_parts Others (place_word v)) × (result ≤ 1) }
{
    if v == 3 {
        return 0; // a member
    }
    if v < 7 { 1 } else { 0 }
}

fn inner_part(v: u8) -> u8
    ensures { (result ≡ word_parts Others (inner_word v)) × (result ≤ 1) }
{
    if v < 2 {
        return 0; // locals, a store
    }
    if v < 13 { 1 } else { 0 }
}

// The parts of the word of the bytes `c`, `lo` and `hi` among others, where `m` marks the first of them. Tests by order and not
// by equality: then no branch stays in the machine's code.
fn one(m: u8, c: u8, lo: u8, hi: u8) -> u8
    ensures { (result ≡ if_first m (word_parts Others (word c (lo + hi * 256)))) × (result ≤ 1) }
{
    if m == 0 {
        return 0;
    }
    if hi != 0 {
        return 0; // no kind and no sort
    }
    if c < 4 {
        return 0; // opens nothing
    }
    if 5 < c {
        return 0;
    }
    if c < 5 {
        return place_part(lo);
    }
    inner_part(lo)
}

// 1 where what stands behind the word may be a part by what the word is.
fn odd(m: u8, c: u8, lo: u8, hi: u8) -> u8
    ensures { (result ≡ if_first m (odd_one (word c (lo + hi * 256)))) × (result ≤ 1) }
{
    if m == 0 {
        return 0;
    }
    if hi != 0 {
        return 0; // no sort
    }
    if c != 5 {
        return 0;
    }
    if lo == 0 {
        return 1; // locals
    }
    if lo < 8 {
        return 0;
    }
    if lo < 10 { 1 } else { 0 } // a hiding, a clause
}

// The parts of the sixteen words from `i` on, of which the first stands among others, unless a word is among them behind which others
// than others stand. `m` marks the bytes with which words begin.
fn plain(ws: &[u8], i: usize, m: &[u8]) -> Option<u8>
    requires { InPiece ws.now i m.now }
    ensures { PlainTo ws.now i result }
{
    let j = 3 * i;
    let mut s: u8 = 0;
    let mut q: u8 = 0;
    for k in 0..48 {
        let x = j + k;
        s += one(m[k], ws[x], ws[x + 1], ws[x + 2]);
        q += odd(m[k], ws[x], ws[x + 1], ws[x + 2]);
    }
    if q != 0 {
        return None;
    }
    Some(s)
}

// Sixteen words, of which the first stands among `a`.
fn sixteen(ws: &[u8], i: usize, a: Among, m: &[u8]) -> Count
    requires { InPiece ws.now i m.now × (length (words ws.now) ≤ 1048576) }
    ensures { Ran (words ws.now) a i (i + 16) result }
{
    if let Among::Others = a {
        if let Some(s) = plain(ws, i, m) {
            return Count {
                among: Among::Others,
                parts: usize::from(s),
            };
        }
    }
    run(ws, i, i + 16, a)
}

// How many parts the words have.
pub fn parts(ws: &[u8]) -> usize
    requires { length (words ws.now) ≤ 1048576 }
    ensures { (result ≡ parts_in Others (words ws.now)) × (result ≤ 65536 * length (words ws.now)) }
{
    let n = mem_words::count(ws);
    let marks = mem_tallies::first_bytes();
    let mut m = Among::Others;
    let mut r = 0;
    let mut i = 0;
    // A `while`: where the pieces end the words that are left begin.
    while 17 <= n - i {
        let c = sixteen(ws, i, m, &marks);
        i += 16;
        r += c.parts;
        m = c.among;
    }
    let d = run(ws, i, n, m);
    r + d.parts
}
