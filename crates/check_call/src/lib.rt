// A check of a store as a function that C and Rust can call, for tests and measurements: 8, 9, or 0.
#![tactic(auto)]

ghost use Rattle.check_call.specs.Refused.{CheckCalled};

// 8 where a slice is too short, 9 where the store holds no well-formed program and configuration, else 0. The working slice is zero
// afterwards.
#[unsafe(no_mangle)]
pub extern "C" fn store_check(store: &[u8], work: &mut [u8]) -> usize
    ensures { CheckCalled store.now work.old work.new result }
{
    let done = call_slices::formed_or_refused(store, work);
    work.fill(0);
    match done {
        Ok(()) => 0,
        Err(refusal) => refusal.number() as usize,
    }
}
