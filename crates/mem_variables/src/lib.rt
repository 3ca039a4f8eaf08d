// A variable as a type of its own, so that no place, position or length is passed for one.
#![tactic(auto)]

// A variable's number.
#[derive(Clone, Copy, Debug, PartialEq, Eq)]
pub struct Variable(pub usize);
