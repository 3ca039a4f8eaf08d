// The bracket of lent words that is open at a position.
#![tactic(auto)]

ghost use Rattle.std.specs.Prelude.{◌≡◌, ◌-◌, ◌<◌, ◌≤◌, ◌^◌, length};
ghost use Rattle.mem_words.specs.Words.{words};
ghost use Rattle.rule_words.specs.Scans.{opens, higher, around};

use mem_words::Word;

// Whether a word opens the bracket, where `d` brackets were closed on the way.
fn is_opening(w: Word, d: usize) -> bool
    ensures { result ≡ opens w d }
{
    d == 0 && matches!(w, Word::Place(_) | Word::Inner(_))
}

// How many were closed, with a word.
fn depth_before(w: Word, d: usize) -> usize
    requires { d < 2 ^ 63 }
    ensures { result ≡ higher w d }
{
    match w {
        Word::End => d + 1,
        Word::Place(_) | Word::Inner(_) => d.saturating_sub(1),
        _ => d,
    }
}

// Where the bracket that is open at `i` opens; 0 if none is.
pub fn opening_of(ws: &[u8], i: usize) -> usize
    requires { i ≤ length (words ws.now) }
    ensures { (result ≡ around (words ws.now) i) × (result ≤ i) }
{
    let mut d: usize = 0;
    for j in (0..i).rev() {
        let w = mem_get::get(ws, j);
        if is_opening(w, d) {
            return j;
        }
        d = depth_before(w, d);
    }
    0
}
