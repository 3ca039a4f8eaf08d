// The start of a query: from a program text and a query text to a store, on any slices.
#![tactic(auto)]

ghost use Rattle.refusals.specs.Refusals.{refused_with};
ghost use Rattle.start_outcome.specs.Outcome.{StartTo};
ghost use Rattle.start_call.specs.Called.{StartCalled};

use refusals::Refusal;

// As `akl_start`; `w` is the length of the working slice.
fn judged(program: &[u8], query: &[u8], store: &mut [u8], w: usize) -> Result<(), Refusal>
    ensures { StartTo program.now query.now store.old w store.new (refused_with result) }
{
    if 16384 < program.len() {
        return Err(Refusal::TooLong);
    }
    if 4096 < query.len() {
        let e = 4097; // one byte too many is enough to refuse it
        return start_begin::begin(program, &query[..e], store, w);
    }
    start_begin::begin(program, query, store, w)
}

// Reads the program and the query and writes the store of the query's start. Answers the refusal, or 0: 1 to 7 of the program, then of
// the query, then 8, then 15. A refused start leaves the store as it was. The working slice is zero afterwards.
pub fn akl_start(program: &[u8], query: &[u8], store: &mut [u8], work: &mut [u8]) -> usize
    ensures { StartCalled program.now query.now store.old work.old store.new work.new result }
{
    let done = judged(program, query, store, work.len());
    work.fill(0);
    match done {
        Ok(()) => 0,
        Err(refusal) => refusal.number() as usize,
    }
}
