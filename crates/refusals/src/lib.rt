// What a call returns instead of 0: the refusals of document 01's table, in its order.
#![tactic(auto)]

ghost use Rattle.std.specs.Prelude.{◌≡◌};
ghost use Rattle.refusals.specs.Refusals.{number_of, Textual};

#[derive(Clone, Copy, Debug, PartialEq, Eq)]
pub enum Refusal {
    TooLong, // 1
    NotOfGrammar, // 2
    TooMany, // 3
    Twice, // 4
    NotDefined, // 5
    NotBound, // 6
    TwoOperators, // 7
    TooShort, // 8
    NotWellFormed, // 9
    NoRule, // 10
    NoPlace, // 11
    OtherKind, // 12
    ConditionFalse, // 13
    NoFreshNumber, // 14
    TooManyParts, // 15
    NoAnswer, // 16
    AnswerTooLong, // 17
    NotALine, // 18
}

impl Refusal {
    // Its number in the table.
    pub fn number(self) -> u32
        ensures { result ≡ number_of self }
    {
        match self {
            Refusal::TooLong => 1,
            Refusal::NotOfGrammar => 2,
            Refusal::TooMany => 3,
            Refusal::Twice => 4,
            Refusal::NotDefined => 5,
            Refusal::NotBound => 6,
            Refusal::TwoOperators => 7,
            Refusal::TooShort => 8,
            Refusal::NotWellFormed => 9,
            Refusal::NoRule => 10,
            Refusal::NoPlace => 11,
            Refusal::OtherKind => 12,
            Refusal::ConditionFalse => 13,
            Refusal::NoFreshNumber => 14,
            Refusal::TooManyParts => 15,
            Refusal::NoAnswer => 16,
            Refusal::AnswerTooLong => 17,
            Refusal::NotALine => 18,
        }
    }
}

// The refusal of a text of the grammar that has the number `f`, if that is 3 to 7.
pub fn of_tree(f: usize) -> Refusal
    ensures { Textual f → number_of result ≡ f }
{
    match f {
        3 => Refusal::TooMany,
        4 => Refusal::Twice,
        5 => Refusal::NotDefined,
        6 => Refusal::NotBound,
        _ => Refusal::TwoOperators,
    }
}
