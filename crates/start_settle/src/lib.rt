// The start of a query whose texts are read: 8 where a slice is too short, 15 where it has too many parts, else the store is written.
#![tactic(auto)]

ghost use Rattle.std.specs.Prelude.{take};
ghost use Rattle.mem_numbers.specs.Numbers.{shorts};
ghost use Rattle.mem_words.specs.Words.{words};
ghost use Rattle.refusals.specs.Refusals.{refused_with};
ghost use Rattle.start_settle.specs.Settled.{CanSettle, Settled};

use refusals::Refusal;

// As `start_lay::lay`; `w` is the length of the working slice. Answers the refusal, if any.
pub fn settle(
    cells: &[u8],
    m: usize,
    rules: &[u8],
    a: usize,
    order: &[u8],
    v: usize,
    goal: &[u8],
    b: usize,
    store: &mut [u8],
    w: usize,
) -> Result<(), Refusal>
    requires { CanSettle cells.now rules.now (shorts order.now) (words goal.now) m a v b }
    ensures { Settled store.old cells.now rules.now (shorts order.now) (take b (words goal.now)) m a v w store.new (refused_with result) }
{
    if store.len() < 245853 {
        return Err(Refusal::TooShort);
    }
    if w < 524288 {
        return Err(Refusal::TooShort);
    }
    let e = 3 * b;
    let p = store_parts::parts(&goal[..e]);
    if 2046 < p + v {
        return Err(Refusal::TooManyParts);
    }
    start_lay::lay(cells, m, rules, a, order, v, goal, b, store);
    Ok(())
}
