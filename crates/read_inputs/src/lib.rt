// What reading a program and a query comes to, and its outputs made zero.
#![tactic(auto)]

ghost use Rattle.std.specs.Prelude.{◌≡◌, length, replicate};

use refusals::Refusal;

// How many definitions the program has and how many words, how many variables the query has and how many words, and how many
// nodes the names of both; or the refusal; or a table is too short.
#[derive(Clone, Copy)]
pub enum Inputs {
    Read {
        definitions: usize,
        rules: usize,
        variables: usize,
        goal: usize,
        names: usize,
    },
    Refused(Refusal),
    Short,
}

// Makes the outputs zero.
pub fn clear(
    cells: &mut [u8],
    heads: &mut [u8],
    rules: &mut [u8],
    order: &mut [u8],
    goal: &mut [u8],
)
    ensures { (cells.new ≡ replicate (length cells.old) 0) × (heads.new ≡ replicate (length heads.old) 0) × (rules.new ≡ replicate (length rules.old) 0) × (order.new ≡ replicate (length order.old) 0) × (goal.new ≡ replicate (length goal.old) 0) }
{
    cells.fill(0);
    heads.fill(0);
    rules.fill(0);
    order.fill(0);
    goal.fill(0);
}
