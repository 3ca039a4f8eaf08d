// How many answers the configuration in a store has, on any slices.
#![tactic(auto)]

ghost use Rattle.std.specs.Prelude.{length};
ghost use Rattle.refusals.specs.Refusals.{number_told};
ghost use Rattle.call_count.specs.Called.{CountTo, CountCalled};

use refusals::Refusal;

// As `akl_count`, but for the working slice afterwards.
fn asked(store: &[u8], work: &mut [u8]) -> Result<usize, Refusal>
    ensures { CountTo store.now (length work.old) (number_told result) }
{
    call_slices::formed_or_refused(store, work)?;
    let n = store_views::config_count(store);
    let e = 159837 + 3 * n;
    let c = answer_boxes::count(&store[159837..e], work);
    Ok(256 * c)
}

// How many answers the configuration has that the store holds. Answers 256 times their number; or the refusal: 8 where a slice is too
// short, 9 where the store holds no well-formed program and configuration. The working slice is zero afterwards.
pub fn akl_count(store: &[u8], work: &mut [u8]) -> usize
    ensures { CountCalled store.now work.old work.new result }
{
    let done = asked(store, work);
    work.fill(0);
    match done {
        Ok(told) => told,
        Err(refusal) => refusal.number() as usize,
    }
}
