// Where arguments and hidden lists end in a table of tokens.
#![tactic(auto)]

ghost use Rattle.mem_numbers.specs.Numbers.{triples};
ghost use Rattle.read_phrases.specs.Phrases.{ArgumentsTo, HiddenTo};

use read_phrases::Phrase;

// Arguments in brackets, or none at all.
pub fn arguments_end(codes: &[u8], at: usize) -> Phrase
    ensures { ArgumentsTo (triples codes.now) at result }
{
    if read_phrases::kind_at(codes, at) != 3 {
        return Phrase::To { rest: at, count: 0 };
    }
    let p = read_phrases::variables_end(codes, at + 1);
    match p {
        Phrase::To { rest, count } => {
            if read_phrases::kind_at(codes, rest) != 4 {
                return Phrase::Odd;
            }
            Phrase::To {
                rest: rest + 1,
                count,
            }
        }
        Phrase::Odd => Phrase::Odd,
    }
}

// A hidden list and its colon, or none at all: a variable that `=` does not follow begins one.
pub fn hidden_end(codes: &[u8], at: usize) -> Phrase
    ensures { HiddenTo (triples codes.now) at result }
{
    if read_phrases::kind_at(codes, at) != 2 {
        return Phrase::To { rest: at, count: 0 };
    }
    if read_phrases::kind_at(codes, at + 1) == 9 {
        return Phrase::To { rest: at, count: 0 };
    }
    let p = read_phrases::variables_end(codes, at);
    match p {
        Phrase::To { rest, count } => {
            if read_phrases::kind_at(codes, rest) != 7 {
                return Phrase::Odd;
            }
            Phrase::To {
                rest: rest + 1,
                count,
            }
        }
        Phrase::Odd => Phrase::Odd,
    }
}
