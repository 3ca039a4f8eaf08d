// What is left of a bracket that is being read, and what a word does to it.
#![tactic(auto)]

ghost use Rattle.std.specs.Prelude.{◌≡◌};
ghost use Rattle.akl.specs.Base.{if};

// The rest of a bracket, up to its End. `n` variables are bound around it, hidings and choices may nest `d` deeper in it.
#[derive(Clone, Copy)]
pub enum Frame {
    // an End
    Close,
    // two variables, one variable, and an End
    Var2(usize),
    Var1(usize),
    // of an application: its variable, its constructor, at most `k` arguments more
    AppVar(usize),
    AppNum(usize),
    Args(usize, usize),
    // of a call: its name, arguments behind the `k` of name `p` that were read
    CallNum(usize),
    CallArgs(usize, usize, usize),
    // a statement
    One(usize, usize),
    // of a composition, and of a clause: two statements
    Comp2(usize, usize),
    Clause2(usize, usize),
    // the number of hidden variables, then a statement; of a clause, then two
    HideNum(usize, usize),
    ClauseNum(usize, usize),
    // clauses: one or more, none or more
    Clauses1(usize, usize),
    Clauses(usize, usize),
    // of a program: definitions, the number of parameters, a body with `n` parameters
    Head,
    Arity,
    Body(usize),
    // a configuration, nothing
    Root,
    Done,
    // of an or-box: goals
    Goals,
    // of an and-box: locals, a store and members; a store and members; members
    AndLocals,
    AndStore,
    Members,
    // local variables, stored constraints
    Locals,
    Constraints,
    // of a choice-box: guarded goals; of one of them: a goal and a statement
    Guards,
    Guard,
}

// The word is refused; it leaves another rest; it opens a bracket, and leaves another rest behind it; it closes the bracket.
#[derive(Clone, Copy)]
pub enum Move {
    Stop,
    Stay(Frame),
    Push(Frame, Frame),
    Pop,
}

// The move `m` where `b` is true, else a refusal.
pub fn when(b: bool, m: Move) -> Move
    ensures { result ≡ if b m Move.Stop }
{
    if b { m } else { Move::Stop }
}
