// The library for a host: all calls, under the names that C links. Each is the proved call of its crate, with its contract.
#![tactic(auto)]

ghost use Rattle.step_meant.specs.Deciding.{step_of};
ghost use Rattle.start_call.specs.Called.{StartCalled};
ghost use Rattle.call_step.specs.Called.{StepCalled};
ghost use Rattle.call_run.specs.Called.{RunCalled};
ghost use Rattle.call_answer.specs.Called.{AnswerCalled};
ghost use Rattle.call_state.specs.Called.{StateCalled};
ghost use Rattle.call_count.specs.Called.{CountCalled};

// The start of a query: the store is that of the start. Answers the refusal, or 0: 1 to 7 of the program, then of the query, then 8,
// then 15.
#[unsafe(no_mangle)]
pub extern "C" fn akl_start(
    program: &[u8],
    query: &[u8],
    store: &mut [u8],
    work: &mut [u8],
) -> usize
    ensures { StartCalled program.now query.now store.old work.old store.new work.new result }
{
    start_call::akl_start(program, query, store, work)
}

// One step. Answers the refusal, or 0: 8, 9, then 10 to 15.
#[unsafe(no_mangle)]
pub extern "C" fn akl_step(
    store: &mut [u8],
    work: &mut [u8],
    rule: usize,
    place: usize,
    argument: usize,
) -> usize
    ensures { StepCalled store.old work.old (step_of rule place argument) store.new work.new result }
{
    call_step::akl_step(store, work, rule, place, argument)
}

// A steps text. Answers 256 times the number of accepted steps, and the refusal added, or 0: 1 and 18 of the text, then 8, 9, then 10
// to 15 of the next step.
#[unsafe(no_mangle)]
pub extern "C" fn akl_run(steps: &[u8], store: &mut [u8], work: &mut [u8]) -> usize
    ensures { RunCalled steps.now store.old work.old store.new work.new result }
{
    call_run::akl_run(steps, store, work)
}

// An answer's text, at the beginning of `out`. Answers 256 and its length; or the refusal, 8, 9, 16 or 17.
#[unsafe(no_mangle)]
pub extern "C" fn akl_answer(store: &[u8], work: &mut [u8], number: usize, out: &mut [u8]) -> usize
    ensures { AnswerCalled store.now work.old number out.old work.new out.new result }
{
    call_answer::akl_answer(store, work, number, out)
}

// The state. Answers 256 times its number, 0 failed, 1 final, 2 open; or the refusal, 8 or 9.
#[unsafe(no_mangle)]
pub extern "C" fn akl_state(store: &[u8], work: &mut [u8]) -> usize
    ensures { StateCalled store.now work.old work.new result }
{
    call_state::akl_state(store, work)
}

// How many answers there are. Answers 256 times their number; or the refusal, 8 or 9.
#[unsafe(no_mangle)]
pub extern "C" fn akl_count(store: &[u8], work: &mut [u8]) -> usize
    ensures { CountCalled store.now work.old work.new result }
{
    call_count::akl_count(store, work)
}
