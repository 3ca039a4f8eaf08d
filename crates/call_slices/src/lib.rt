// What stands at the head of each call on a store: 8 and 9, the lengths of the slices that are lent and whether the store holds a state.
#![tactic(auto)]

ghost use Rattle.std.specs.Prelude.{length};
ghost use Rattle.call_slices.specs.Admitted.{Admits};

use refusals::Refusal;

// 8 where a slice is too short, then 9 where the store holds no well-formed program and configuration. The working slice need not be zero
// before, and is not afterwards.
pub fn formed_or_refused(store: &[u8], work: &mut [u8]) -> Result<(), Refusal>
    ensures { Admits store.now (length work.old) result }
{
    if store.len() < 245853 {
        return Err(Refusal::TooShort); // the store
    }
    if work.len() < 524288 {
        return Err(Refusal::TooShort);
    }
    if !check_store::formed(store, work) {
        return Err(Refusal::NotWellFormed);
    }
    Ok(())
}
