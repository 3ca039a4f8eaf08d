// The lines of the record, put into a lent slice. Each function hands back where its piece ends: the slice's length + 1 where it does
// not fit.
#![tactic(auto)]

ghost use Rattle.std.specs.Prelude.{true, ◌++◌, ◌+◌, ◌≤◌, length};
ghost use Rattle.akl.specs.Base.{bytes};
ghost use Rattle.akl.specs.Record.{two_lines};
ghost use Rattle.answer_emit.specs.Put.{Put};
ghost use Rattle.record_lines.specs.Lines.{TextIn, AnswerPut, StatePut};

// A text that is given.
fn text(piece: &[u8], out: &mut [u8], at: usize) -> usize
    requires { at ≤ length out.old + 1 }
    ensures { Put piece.now true out.old at out.new result }
{
    let mut end = at;
    for i in 0..piece.len() {
        end = answer_emit::byte(out, end, piece[i], true);
    }
    end
}

// The first two lines.
pub fn head(accepted: usize, refusal: usize, out: &mut [u8]) -> usize
    ensures { Put (two_lines accepted refusal) true out.old 0 out.new result }
{
    let a = text(b"accepted ", out, 0);
    let b = answer_emit::number(out, a, accepted, true);
    let c = text(b"\n", out, b);
    let d = text(b"refusal ", out, c);
    let e = answer_emit::number(out, d, refusal, true);
    text(b"\n", out, e)
}

// The text of an answer in the part of `out` from `lo` on up to `hi`.
fn text_in(
    store: &[u8],
    work: &mut [u8],
    number: usize,
    out: &mut [u8],
    lo: usize,
    hi: usize,
) -> usize
    requires { (lo ≤ hi) × (hi ≤ length out.old) }
    ensures { TextIn store.now work.old number lo hi out.old work.new out.new result }
{
    call_answer::akl_answer(store, work, number, &mut out[lo..hi])
}

// The line of the answer of the number `number`: "It lends 4,096 bytes per answer and prints `answer long` on 17." None where there is no
// such answer, or `out` has not 4,104 bytes.
pub fn answer(store: &[u8], work: &mut [u8], number: usize, out: &mut [u8]) -> Option<usize>
    ensures { AnswerPut store.now work.old number out.old work.new out.new result }
{
    if out.len() < 4104 {
        return None;
    }
    text(b"answer ", out, 0);
    let x = text_in(store, work, number, out, 7, 4103);
    if x == 17 {
        let a = text(b"long", out, 7);
        return Some(text(b"\n", out, a));
    }
    if x < 256 {
        return None;
    }
    Some(text(b"\n", out, x - 249))
}

// The last line, of a state's name.
fn state_line(name: &[u8], out: &mut [u8]) -> usize
    ensures { Put ((bytes "state " ++ name.now) ++ bytes "\n") true out.old 0 out.new result }
{
    let a = text(b"state ", out, 0);
    let b = text(name, out, a);
    text(b"\n", out, b)
}

// The last line. None where the store holds nothing, or a slice is too short.
pub fn state(store: &[u8], work: &mut [u8], out: &mut [u8]) -> Option<usize>
    ensures { StatePut store.now work.old out.old work.new out.new result }
{
    let x = call_state::akl_state(store, work);
    if x == 0 {
        return Some(state_line(b"failed", out));
    }
    if x == 256 {
        return Some(state_line(b"final", out));
    }
    if x == 512 {
        return Some(state_line(b"open", out));
    }
    None
}
