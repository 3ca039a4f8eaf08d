// A step on a store and a working slice, on any slices.
#![tactic(auto)]

ghost use Rattle.std.specs.Prelude.{length};
ghost use Rattle.refusals.specs.Refusals.{refused_with};
ghost use Rattle.step_meant.specs.Deciding.{step_of};
ghost use Rattle.call_step.specs.Called.{StepTo, StepCalled};

use read_steps::Place;
use refusals::Refusal;
use rule_places::Finger;

// As `akl_step`, but for the working slice afterwards.
fn judged(
    store: &mut [u8],
    work: &mut [u8],
    rule: usize,
    place: Place,
    argument: usize,
) -> Result<(), Refusal>
    ensures { StepTo store.old (length work.old) (step_of rule place.0 argument) store.new (refused_with result) }
{
    call_slices::formed_or_refused(store, work)?;
    rule_solve::ready(work);
    let first = Finger { at: 0, before: 0 };
    // any state that is held has at most 2,048 parts
    step_store::step(store, work, 2048, first, rule, place, argument)?;
    Ok(())
}

// Does the step on the state that the store holds. Answers the refusal, or 0: 8 where a slice is too short, 9 where the store holds no
// well-formed program and configuration, then 10 to 15 of the step. A refused step leaves the store as it was. The working slice is zero
// afterwards.
pub fn akl_step(
    store: &mut [u8],
    work: &mut [u8],
    rule: usize,
    place: usize,
    argument: usize,
) -> usize
    ensures { StepCalled store.old work.old (step_of rule place argument) store.new work.new result }
{
    let done = judged(store, work, rule, Place(place as u64), argument);
    work.fill(0);
    match done {
        Ok(()) => 0,
        Err(refusal) => refusal.number() as usize,
    }
}
