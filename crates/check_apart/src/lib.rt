// Whether the locals in the words of a configuration do not interfere: one pass with a stack of the open brackets, and for each
// variable the place where it last was a local.
#![tactic(auto)]

ghost use Rattle.std.specs.Prelude.{◌≡◌, ◌≤◌, length};
ghost use Rattle.mem_words.specs.Words.{words, Read};
ghost use Rattle.work_tables.specs.Tables.{Laid};
ghost use Rattle.check_words.specs.Apart.{apart_passed};
ghost use Rattle.check_vartables.specs.Tables.{stack_of, names_of, Checked};
ghost use Rattle.check_vartables.specs.Stacks.{tops};
ghost use Rattle.check_apart.specs.Search.{Ordered, Before, strict_word, naming_word, fit};
ghost use Rattle.check_apart.specs.Steps.{Holding, top_names};
ghost use Rattle.check_apart.specs.Next.{Look, Ready, Next, CanOpen, Opened};

use mem_words::Word;

// Whether the word opens an and-box or its locals.
fn strict(w: Word) -> bool
    ensures { result ≡ strict_word w }
{
    match w {
        Word::Place(k) => check_kinds::boxes(k),
        Word::Inner(s) => check_kinds::lists(s),
        _ => false,
    }
}

// Whether the word opens the locals of an and-box.
fn naming(w: Word) -> bool
    ensures { result ≡ naming_word w }
{
    match w {
        Word::Inner(s) => check_kinds::lists(s),
        _ => false,
    }
}

// How many of the `k` open brackets start before `v`.
fn earlier(work: &[u8], k: usize, v: usize) -> usize
    requires { Laid work.now × (k ≤ 28672) × Ordered (stack_of work.now) k }
    ensures { Before (stack_of work.now) k v result }
{
    // A binary search by hand: the stack's numbers lie two bytes each among other tables, and no slice of them is there to be searched.
    let mut lo = 0;
    let mut hi = k;
    while lo < hi {
        let m = (lo + hi) / 2;
        if check_vartables::stack_get(work, m) < v {
            lo = m + 1;
        } else {
            hi = m;
        }
    }
    lo
}

// Whether the innermost of the `k` open brackets that start before `v` is no and-box.
fn agrees(ws: &[u8], work: &[u8], k: usize, v: usize) -> bool
    requires { Look (words ws.now) work.now k }
    ensures { result ≡ fit (words ws.now) v (tops (stack_of work.now) k) }
{
    let r = earlier(work, k, v);
    if r == 0 {
        return true;
    }
    let p = check_vartables::stack_get(work, r - 1);
    let w = mem_get::get(ws, p);
    !strict(w)
}

// Whether the innermost of the `k` open brackets holds locals.
fn inside_locals(ws: &[u8], work: &[u8], k: usize) -> bool
    requires { Look (words ws.now) work.now k }
    ensures { result ≡ top_names (words ws.now) (tops (stack_of work.now) k) }
{
    if k == 0 {
        return false;
    }
    let p = check_vartables::stack_get(work, k - 1);
    let w = mem_get::get(ws, p);
    naming(w)
}

// The variable `x` is the word at `i`: how many brackets are open behind it, or none where locals interfere.
fn variable(ws: &[u8], work: &mut [u8], i: usize, k: usize, x: usize) -> Option<usize>
    requires { Ready (words ws.now) work.old k i × Read (words ws.now) i (Word.Free x) }
    ensures { Next (words ws.now) work.old work.new i result }
{
    if !inside_locals(ws, work, k) {
        return Some(k);
    }
    let v = check_vartables::name_get(work, x);
    if !agrees(ws, work, k, v) {
        return None;
    }
    check_vartables::name_put(work, x, i + 1);
    Some(k)
}

// A bracket opens at `i`.
fn open_bracket(work: &mut [u8], i: usize, k: usize) -> usize
    requires { CanOpen work.old k i }
    ensures { Opened work.old k i work.new result }
{
    check_vartables::stack_put(work, k, i);
    k + 1
}

// The word at `i` is `w`: how many brackets are open behind it, or none where locals interfere.
fn step(ws: &[u8], work: &mut [u8], i: usize, k: usize, w: Word) -> Option<usize>
    requires { Ready (words ws.now) work.old k i × Read (words ws.now) i w }
    ensures { Next (words ws.now) work.old work.new i result }
{
    match w {
        Word::End => {
            if k == 0 {
                return Some(0);
            }
            Some(k - 1)
        }
        Word::Free(x) => variable(ws, work, i, k, x),
        Word::Level(_) => Some(k),
        Word::Num(_) => Some(k),
        Word::Place(_) => Some(open_bracket(work, i, k)),
        Word::Inner(_) => Some(open_bracket(work, i, k)),
        Word::Bad => Some(k),
    }
}

// The words from the first on, with no number kept for any variable.
fn walk(ws: &[u8], work: &mut [u8]) -> bool
    requires { Laid work.old × (length (words ws.now) ≤ 28672) × Holding (words ws.now) (stack_of work.old) (names_of work.old) 0 0 }
    ensures { (result ≡ apart_passed (words ws.now)) × Checked work.old work.new }
{
    let n = mem_words::count(ws);
    let mut k = 0;
    for i in 0..n {
        let w = mem_get::get(ws, i);
        let Some(open) = step(ws, work, i, k, w) else {
            return false;
        };
        k = open;
    }
    true
}

// Whether the locals in the words do not interfere.
pub fn apart(ws: &[u8], work: &mut [u8]) -> bool
    requires { Laid work.old × (length (words ws.now) ≤ 28672) }
    ensures { (result ≡ apart_passed (words ws.now)) × Checked work.old work.new }
{
    check_vartables::names_zero(work);
    walk(ws, work)
}
