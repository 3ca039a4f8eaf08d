// Where a bracket of lent words closes.
#![tactic(auto)]

ghost use Rattle.std.specs.Prelude.{◌≡◌, ◌-◌, ◌<◌, ◌≤◌, ◌^◌, length};
ghost use Rattle.mem_words.specs.Words.{words};
ghost use Rattle.rule_words.specs.Scans.{closes, deeper, close};

use mem_words::Word;

// Whether a word closes the bracket, where `d` more are open inside it.
fn is_closing(w: Word, d: usize) -> bool
    ensures { result ≡ closes w d }
{
    d == 0 && matches!(w, Word::End)
}

// How many are open inside it behind a word.
fn depth_after(w: Word, d: usize) -> usize
    requires { d < 2 ^ 63 }
    ensures { result ≡ deeper w d }
{
    match w {
        Word::End => d.saturating_sub(1),
        Word::Place(_) | Word::Inner(_) => d + 1,
        _ => d,
    }
}

// Where the bracket that opens at `i` closes; the number of words if it does not.
pub fn end_of(ws: &[u8], i: usize) -> usize
    ensures { (result ≡ close (words ws.now) i) × (result ≤ length (words ws.now)) }
{
    let n = mem_words::count(ws);
    if n <= i {
        return n;
    }
    let mut d: usize = 0;
    for j in i + 1..n {
        let w = mem_get::get(ws, j);
        if is_closing(w, d) {
            return j;
        }
        d = depth_after(w, d);
    }
    n
}
