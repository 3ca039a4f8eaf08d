// What three texts come to: the first two numbers of the record, and the store of where the steps lead.
#![tactic(auto)]

ghost use Rattle.record_verdict.specs.Judged.{Judged};

// How many steps are accepted, and the refusal of the next step or 0.
#[derive(Clone, Copy, Debug, PartialEq, Eq)]
pub struct Ran {
    pub accepted: usize,
    pub refusal: usize,
}

// Why no step was tried: the refusal of a text or of the start, or a slice that is shorter than documented.
#[derive(Clone, Copy, Debug, PartialEq, Eq)]
pub enum Untried {
    Refused(usize),
    Short,
}

// "1 to 7 of the program before those of the query, then 1 and 18 of the whole steps text before any step is tried, then the others."
// Short where the three texts are read and a slice is shorter than documented. Where the steps were tried the store holds the
// configuration that the accepted steps lead to. The working slice is zero afterwards.
pub fn judge(
    rules: &[u8],
    query: &[u8],
    steps: &[u8],
    store: &mut [u8],
    work: &mut [u8],
) -> Result<Ran, Untried>
    ensures { Judged rules.now query.now steps.now store.old work.old store.new work.new result }
{
    let x = start_call::akl_start(rules, query, store, work);
    if 0 < x && x < 8 {
        return Err(Untried::Refused(x));
    }
    if let Err(refusal) = read_lines::check(steps) {
        return Err(Untried::Refused(refusal.number() as usize));
    }
    if x == 8 {
        return Err(Untried::Short);
    }
    if x != 0 {
        return Err(Untried::Refused(x));
    }
    let y = call_run::akl_run(steps, store, work);
    Ok(Ran {
        accepted: y / 256,
        refusal: y % 256,
    })
}
