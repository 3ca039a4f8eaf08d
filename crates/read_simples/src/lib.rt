// Simple statements in a table of tokens: a constraint atom, a program atom or a bracket.
#![tactic(auto)]

ghost use Rattle.mem_numbers.specs.Numbers.{triples};
ghost use Rattle.read_phrases.specs.Codes.{Known};
ghost use Rattle.read_phrases.specs.Phrases.{CanEquate, CanName, SimpleAt};

use read_phrases::{Constraint, Phrase, Simple};

// The constraint that begins with the variable at `at` and an equals sign.
fn equation_at(codes: &[u8], at: usize) -> Simple
    requires { CanEquate (triples codes.now) at }
    ensures { SimpleAt (triples codes.now) at result }
{
    let var = read_phrases::number_at(codes, at);
    let i = at + 2;
    let k = read_phrases::kind_at(codes, i);
    if k == 2 {
        let right = read_phrases::number_at(codes, i);
        return Simple::Atom {
            kind: Constraint::Same { left: var, right },
            rest: i + 1,
        };
    }
    if 2 < k {
        return Simple::Odd;
    }
    let label = read_phrases::number_at(codes, i);
    let p = read_ends::arguments_end(codes, i + 1);
    match p {
        Phrase::To { rest, count } => Simple::Atom {
            kind: Constraint::Made {
                var,
                label,
                first: i + 2,
                count,
            },
            rest,
        },
        Phrase::Odd => Simple::Odd,
    }
}

// The constraint or program atom that begins with the name at `at`. The names `true` and `fail` have the numbers 4 and 8.
fn named_at(codes: &[u8], at: usize) -> Simple
    requires { CanName (triples codes.now) at }
    ensures { SimpleAt (triples codes.now) at result }
{
    let name = read_phrases::number_at(codes, at);
    let p = read_ends::arguments_end(codes, at + 1);
    match p {
        Phrase::To { rest, count } => {
            if name == 4 {
                if count != 0 {
                    return Simple::Odd;
                }
                return Simple::Atom {
                    kind: Constraint::True,
                    rest,
                };
            }
            if name == 8 {
                if count != 0 {
                    return Simple::Odd;
                }
                return Simple::Atom {
                    kind: Constraint::Fail,
                    rest,
                };
            }
            Simple::Program {
                name,
                first: at + 2,
                count,
                rest,
            }
        }
        Phrase::Odd => Simple::Odd,
    }
}

// The simple statement that begins at `at`.
pub fn simple_at(codes: &[u8], at: usize) -> Simple
    requires { Known (triples codes.now) }
    ensures { SimpleAt (triples codes.now) at result }
{
    let k = read_phrases::kind_at(codes, at);
    if k == 3 {
        return Simple::Bracket { inside: at + 1 };
    }
    if k == 2 {
        if read_phrases::kind_at(codes, at + 1) != 9 {
            return Simple::Odd;
        }
        return equation_at(codes, at);
    }
    if k == 0 {
        return named_at(codes, at);
    }
    Simple::Odd
}
