// An answer of the configuration in a store, on any slices.
#![tactic(auto)]

ghost use Rattle.std.specs.Prelude.{◌≡◌, ◌+◌, ◌≤◌, length};
ghost use Rattle.refusals.specs.Refusals.{number_told};
ghost use Rattle.mem_words.specs.Words.{words};
ghost use Rattle.work_tables.specs.Tables.{Laid, Logged};
ghost use Rattle.step_meant.specs.Deciding.{HoldsState};
ghost use Rattle.call_answer.specs.Telling.{AnswerThere, AnswerTold};
ghost use Rattle.call_answer.specs.Called.{AnswerTo, AnswerCalled, AnswerOf, AnswerReady};

use refusals::Refusal;
use solve_tells::Told;

// Tells the store of the answer at `j` to the solver, on cells that are zero. Nothing but or-boxes is around it, so that it is the only
// one. Answers how many words of the log are used.
fn tell(t: &[u8], w: &mut [u8], j: usize) -> usize
    requires { Laid w.old × AnswerThere (words t.now) j }
    ensures { AnswerTold (words t.now) j result w.new × Laid w.new × Logged result }
{
    mem_parts::zero(w, 16384, 212992);
    let u = rule_close::end_of(t, j + 1);
    let e = rule_close::end_of(t, u + 1);
    let from = u + 2;
    let len = e - from;
    let r = work_enter::enter(t, w, 0, 0, 0, from, len);
    match r {
        Told::All(_m, _b) => len + 3,
        Told::Failed(_m, _b) => 0, // it has a solution
        Told::NoRoom(_m, _b) => 0, // there is room
    }
}

// 256 and a length within a slice.
fn above(out: &[u8], q: usize) -> usize
    requires { q ≤ length out.now }
    ensures { result ≡ 256 + q }
{
    256 + q
}

// Puts the text of the answer that was told, `used` words of the log being used. Its length is computed first, so that `out` is as it was
// where the text is longer.
fn put(
    store: &[u8],
    work: &mut [u8],
    used: usize,
    number: usize,
    out: &mut [u8],
) -> Result<usize, Refusal>
    requires { Laid work.old × Logged used × (245853 ≤ length store.now) × AnswerReady store.now number used work.old }
    ensures { AnswerOf store.now number out.old out.new (number_told result) }
{
    let k = mem_parts::get::<3>(store, 0, 18, 1);
    let v = mem_parts::get::<3>(store, 0, 18, 3);
    let a = 18 + 3 * k;
    let e = 159789 + 3 * v;
    let r = answer_length::text_end(work, used, &store[18..a], &store[159789..e], out);
    if out.len() < r {
        return Err(Refusal::AnswerTooLong);
    }
    let q = answer_line::line(work, used, &store[18..a], &store[159789..e], out, true);
    Ok(above(out, q))
}

// The answer of the number `number` of the state that the store holds.
fn of_state(store: &[u8], work: &mut [u8], number: usize, out: &mut [u8]) -> Result<usize, Refusal>
    requires { Laid work.old × (245853 ≤ length store.now) × HoldsState store.now }
    ensures { AnswerOf store.now number out.old out.new (number_told result) }
{
    let c = store_views::config_count(store);
    let e = 159837 + 3 * c;
    let j = answer_boxes::find(&store[159837..e], work, number);
    if j == c {
        return Err(Refusal::NoAnswer);
    }
    let u = tell(&store[159837..e], work, j);
    put(store, work, u, number, out)
}

// As `akl_answer`, but for the working slice afterwards.
fn asked(store: &[u8], work: &mut [u8], number: usize, out: &mut [u8]) -> Result<usize, Refusal>
    ensures { AnswerTo store.now (length work.old) number out.old out.new (number_told result) }
{
    call_slices::formed_or_refused(store, work)?;
    of_state(store, work, number, out)
}

// The text of the answer of the number `number`, counted from 1, of the configuration that the store holds. Answers 256 and the text's
// length, the text being at the beginning of `out`; or the refusal: 8 where a slice is too short, 9 where the store holds no well-formed
// program and configuration, 16 where there is no such answer, 17 where its text is longer than `out`. A refused call leaves `out` as it
// was, and so is what stands behind the text. The working slice is zero afterwards.
pub fn akl_answer(store: &[u8], work: &mut [u8], number: usize, out: &mut [u8]) -> usize
    ensures { AnswerCalled store.now work.old number out.old work.new out.new result }
{
    let done = asked(store, work, number, out);
    work.fill(0);
    match done {
        Ok(told) => told,
        Err(refusal) => refusal.number() as usize,
    }
}
