// The sorts of nodes and the kinds of places, by their numbers.
#![tactic(auto)]

ghost use Rattle.std.specs.Prelude.{◌≡◌, ◌<◌};
ghost use Rattle.mem_sorts.specs.Shapes.{kind_no, sort_no};

// The shapes that are places of a configuration.
#[derive(Clone, Copy, Debug, PartialEq, Eq)]
pub enum Kind {
    Or,
    And,
    Guarded,
    Member,
    Wait,
    Cond,
    Commit,
}

// The other shapes that open a bracket: locals, stores, constraints and statements.
#[derive(Clone, Copy, Debug, PartialEq, Eq)]
pub enum Sort {
    Locals,
    Store,
    True,
    Fail,
    Eq,
    App,
    Call,
    Comp,
    Hide,
    Clause,
    AskWait,
    AskCond,
    AskCommit,
}

// The number of a kind.
pub fn kind_no(k: Kind) -> usize
    ensures { (result ≡ kind_no k) × (result < 7) }
{
    match k {
        Kind::Or => 0,
        Kind::And => 1,
        Kind::Guarded => 2,
        Kind::Member => 3,
        Kind::Wait => 4,
        Kind::Cond => 5,
        Kind::Commit => 6,
    }
}

// The number of a sort.
pub fn sort_no(s: Sort) -> usize
    ensures { (result ≡ sort_no s) × (result < 13) }
{
    match s {
        Sort::Locals => 0,
        Sort::Store => 1,
        Sort::True => 2,
        Sort::Fail => 3,
        Sort::Eq => 4,
        Sort::App => 5,
        Sort::Call => 6,
        Sort::Comp => 7,
        Sort::Hide => 8,
        Sort::Clause => 9,
        Sort::AskWait => 10,
        Sort::AskCond => 11,
        Sort::AskCommit => 12,
    }
}
