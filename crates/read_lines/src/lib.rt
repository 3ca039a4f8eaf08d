// Steps texts: a line read at a position, and a whole text checked.
#![tactic(auto)]

ghost use Rattle.std.specs.Prelude.{◌≡◌};
ghost use Rattle.akl.specs.StepsText.{read_steps};
ghost use Rattle.read_steps.specs.Lines.{LineRead, checked, counted};

use read_steps::{Place, Step};
use read_tokens::Cursor;
use refusals::Refusal;

// The step of the line that begins at `at`.
pub fn read_line(s: &[u8], at: Cursor) -> Result<(Step, Cursor), Refusal>
    ensures { LineRead s.now at.0 result }
{
    let Some((rule, after_rule)) = read_steps::read_number(s, at, b' ') else {
        return Err(Refusal::NotALine);
    };
    let Some((place, after_place)) = read_steps::read_number(s, after_rule, b' ') else {
        return Err(Refusal::NotALine);
    };
    let Some((argument, rest)) = read_steps::read_number(s, after_place, b'\n') else {
        return Err(Refusal::NotALine);
    };
    Ok((
        Step {
            rule,
            place: Place(place),
            argument,
        },
        rest,
    ))
}

// Whether a whole text is as described, and how many steps it has.
pub fn check(s: &[u8]) -> Result<usize, Refusal>
    ensures { checked result ≡ counted (read_steps s.now) }
{
    if 16384 < s.len() {
        return Err(Refusal::TooLong);
    }
    let mut at: usize = 0;
    let mut n: usize = 0;
    while at < s.len() {
        let (_, rest) = read_line(s, Cursor(at))?;
        n += 1;
        at = rest.0;
    }
    Ok(n)
}
