// The and-box around a member of lent words, with the ends of its locals and of its store: one scan back passes over both.
#![tactic(auto)]

ghost use Rattle.std.specs.Prelude.{◌≡◌, ◌≤◌, length};
ghost use Rattle.mem_words.specs.Words.{words};
ghost use Rattle.rule_words.specs.Scans.{closes, opens};
ghost use Rattle.rule_inbox.specs.Found.{Noted, Within, Found};
ghost use Rattle.rule_inbox.specs.Backwards.{Ends, Begun};

use mem_words::Word;

// Where a box opens, where its locals close and where its store closes.
#[derive(Clone, Copy)]
pub struct Inbox {
    pub at: usize,
    pub locals: usize,
    pub store: usize,
}

// Whether a word is an `End`.
fn is_end(w: Word) -> bool
    ensures { result ≡ closes w 0 }
{
    matches!(w, Word::End)
}

// Whether a word opens a bracket.
fn is_bracket(w: Word) -> bool
    ensures { result ≡ opens w 0 }
{
    matches!(w, Word::Place(_) | Word::Inner(_))
}

// Where the bracket that closes at `c` opens; `c` if none does.
fn begin_of(ws: &[u8], c: usize) -> usize
    requires { Ends (words ws.now) c }
    ensures { Begun (words ws.now) c result }
{
    let mut d: usize = 0;
    for j in (0..c).rev() {
        let w = mem_get::get(ws, j);
        if is_bracket(w) {
            if d == 0 {
                return j;
            }
            d -= 1;
        } else if is_end(w) {
            d += 1;
        }
    }
    c
}

// The box at `a`, with its ends found by scans forwards.
fn scanned(ws: &[u8], a: usize) -> Inbox
    requires { a ≤ length (words ws.now) }
    ensures { Within (words ws.now) a result.at result.locals result.store }
{
    let u = rule_close::end_of(ws, a + 1);
    let s = rule_close::end_of(ws, u + 1);
    Inbox {
        at: a,
        locals: u,
        store: s,
    }
}

// The box at `a`. The brackets from `o1` to `c1` and from `o2` to `c2` are its locals and its store where nothing stands before and
// between them.
fn settled(ws: &[u8], a: usize, o1: usize, c1: usize, o2: usize, c2: usize) -> Inbox
    requires { (a ≤ length (words ws.now)) × Noted (words ws.now) o1 c1 o2 c2 }
    ensures { Within (words ws.now) a result.at result.locals result.store }
{
    if o1 != a + 1 {
        return scanned(ws, a);
    }
    if o2 != c1 + 1 {
        return scanned(ws, a);
    }
    Inbox {
        at: a,
        locals: c1,
        store: c2,
    }
}

// The box around the member at `i`. The scan goes back over whole brackets and notes the last two; before there are any, `n` stands
// for one that never closes.
pub fn inbox_of(ws: &[u8], i: usize) -> Inbox
    requires { i ≤ length (words ws.now) }
    ensures { Found (words ws.now) i result.at result.locals result.store }
{
    let n = mem_words::count(ws);
    let mut j = i;
    let mut o1 = n;
    let mut c1 = n;
    let mut o2 = n;
    let mut c2 = n;
    while 0 < j {
        j -= 1;
        let w = mem_get::get(ws, j);
        if is_bracket(w) {
            return settled(ws, j, o1, c1, o2, c2);
        }
        if is_end(w) {
            let o = begin_of(ws, j);
            if o == j {
                return scanned(ws, 0);
            }
            o2 = o1;
            c2 = c1;
            o1 = o;
            c1 = j;
            j = o;
        }
    }
    scanned(ws, 0)
}
