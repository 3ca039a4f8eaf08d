// What the solver answers: whether variables stay apart, whether a store is quiet, what the class of a variable is. The functions
// are those of work_owners, work_quiet and work_views; definitions and laws stand here.
#![tactic(auto)]

use mem_variables::Variable;

// Why not every variable has a class of its own, with the length of the trail after the looking: one is bound or joined to another, or
// the trail had no place for an owner.
#[derive(Clone, Copy)]
pub enum Unowned {
    Joint(usize),
    NoPlace(usize),
}

// Whether a store is quiet; or the trail has no space to find out. Three answers and no Result: each caller says what it makes of the
// third.
#[derive(Clone, Copy)]
pub enum Calm {
    Silent,
    Loudly,
    NoSpace,
}

// The representative of a class, and where its application begins, if it is bound.
#[derive(Clone, Copy)]
pub struct View {
    pub root: Variable,
    pub term: Option<usize>,
}
