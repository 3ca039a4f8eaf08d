// The heads of a program's definitions: the number of the name * 256 + the parameters. All are known before a body is read, since
// a program atom may stand before its definition.
#![tactic(auto)]

ghost use Rattle.mem_numbers.specs.Numbers.{triples};
ghost use Rattle.read_heads.specs.Heads.{CanHead, HeadTo, HeadedTo};

use read_phrases::Phrase;
use read_statements::Unparsed;

// A definition's head and where the definition ends; or it has too many parameters; there is none; or the stack is too short.
#[derive(Clone, Copy)]
enum Head {
    At { head: usize, rest: usize },
    Many,
    Odd,
    Short,
}

// How many heads there are, and whether one is there twice; or there are too many definitions or parameters; the tokens are no
// program; or the stack or the table is too short.
#[derive(Clone, Copy)]
pub enum Headed {
    All { count: usize, twice: bool },
    Many,
    Odd,
    Short,
}

// The head of the definition that begins at `at`.
fn head_at(codes: &[u8], stack: &mut [u8], at: usize) -> Head
    requires { CanHead (triples codes.now) }
    ensures { HeadTo (triples codes.now) stack.old at result }
{
    let e = read_grammar::definition_end(codes, stack, at);
    match e {
        Ok(rest) => {
            let name = read_phrases::number_at(codes, at);
            let p = read_ends::arguments_end(codes, at + 1);
            match p {
                Phrase::To { rest: _rest, count } => {
                    if 8 < count {
                        return Head::Many;
                    }
                    Head::At {
                        head: name * 256 + count,
                        rest,
                    }
                }
                Phrase::Odd => Head::Odd,
            }
        }
        Err(Unparsed::Odd) => Head::Odd,
        Err(Unparsed::Short) => Head::Short,
    }
}

// Writes the heads of all definitions to `heads`.
pub fn heads_of(codes: &[u8], stack: &mut [u8], heads: &mut [u8]) -> Headed
    requires { CanHead (triples codes.now) }
    ensures { HeadedTo (triples codes.now) stack.old (triples heads.old) (triples heads.new) result }
{
    let n = mem_numbers::count::<3>(codes);
    let room = mem_numbers::count::<3>(heads);
    let mut i = 0;
    let mut k = 0;
    let mut twice = false;
    while i < n {
        if 128 <= k {
            return Headed::Many;
        }
        if room <= k {
            return Headed::Short;
        }
        let h = head_at(codes, stack, i);
        match h {
            Head::At { head, rest } => {
                let again = read_lookups::listed(heads, k, head);
                mem_numbers::put::<3>(heads, k, head);
                k += 1;
                i = rest;
                if again {
                    twice = true;
                }
            }
            Head::Many => {
                return Headed::Many;
            }
            Head::Odd => {
                return Headed::Odd;
            }
            Head::Short => {
                return Headed::Short;
            }
        }
    }
    Headed::All { count: k, twice }
}
