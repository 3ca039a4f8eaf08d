// A steps text on a store and a working slice, on any slices.
#![tactic(auto)]

ghost use Rattle.std.specs.Prelude.{length};
ghost use Rattle.refusals.specs.Refusals.{number_told};
ghost use Rattle.call_run.specs.Called.{CanRun, RunTo, RunCalled};

use read_tokens::Cursor;
use refusals::Refusal;
use rule_places::Finger;

// Tries the steps of a text that was read, line by line, until one is refused or none is left. Its answer is that of `akl_run`.
fn tried(steps: &[u8], store: &mut [u8], work: &mut [u8]) -> usize
    requires { CanRun steps.now store.old work.old }
    ensures { RunTo steps.now store.old (length work.old) store.new result }
{
    let mut at: usize = 0;
    let mut n: usize = 0;
    let mut u: usize = 2048; // at least the parts that the store's configuration has
    let mut near = Finger { at: 0, before: 0 }; // in its words
    while at < steps.len() {
        let Ok((k, rest)) = read_lines::read_line(steps, Cursor(at)) else {
            return 18; // never: every line of the text was read before
        };
        let done = step_store::step(
            store,
            work,
            u,
            near,
            k.rule as usize,
            k.place,
            k.argument as usize,
        );
        match done {
            Ok(left) => {
                u = left.parts;
                near = left.finger;
            }
            Err(refusal) => return 256 * n + refusal.number() as usize,
        }
        n += 1;
        at = rest.0;
    }
    256 * n
}

// As `akl_run`, but for the working slice afterwards.
fn judged(steps: &[u8], store: &mut [u8], work: &mut [u8]) -> Result<usize, Refusal>
    ensures { RunTo steps.now store.old (length work.old) store.new (number_told result) }
{
    read_lines::check(steps)?;
    call_slices::formed_or_refused(store, work)?;
    rule_solve::ready(work);
    Ok(tried(steps, store, work))
}

// Does the steps of the text one after the other on the state that the store holds, until one is refused. Answers 256 times the number of
// accepted steps, and the refusal added, or 0: 1 and 18 of the whole text, then 8 where a slice is too short, then 9 where the store holds
// no well-formed program and configuration, then 10 to 15 of the first step that is refused. The accepted steps stand in the store. The
// working slice is zero afterwards.
pub fn akl_run(steps: &[u8], store: &mut [u8], work: &mut [u8]) -> usize
    ensures { RunCalled steps.now store.old work.old store.new work.new result }
{
    let done = judged(steps, store, work);
    work.fill(0);
    match done {
        Ok(told) => told,
        Err(refusal) => refusal.number() as usize,
    }
}
