// Where a statement ends in a table of tokens, however deep its brackets nest: the open ones are kept on a lent stack, a byte
// each, so that the machine's own stack does not grow with them. A byte says what may follow: 0, the bracket's first statement
// is being read, an operator or the end may follow; 1, a body, a `;` or the end; 2, a later guard, an operator.
#![tactic(auto)]

ghost use Rattle.mem_numbers.specs.Numbers.{triples};
ghost use Rattle.read_phrases.specs.Codes.{Known};
ghost use Rattle.read_statements.specs.Statements.{CanTurn, CanFollow, CanStep, Followed, Stepped, StatementTo};

use read_phrases::{Phrase, Simple};

// What follows: another simple statement, or the outer statement's end.
#[derive(Clone, Copy)]
pub enum Onward {
    Next { at: usize, height: usize },
    Done { rest: usize },
}

// Why nothing is read: the tokens are not of the grammar, or the stack is too short.
#[derive(Clone, Copy, Debug, PartialEq, Eq)]
pub enum Unparsed {
    Odd,
    Short,
}

// Behind a statement in a bracket that does not close there: an operator, or a `;` and the next clause's hidden list.
fn turn(codes: &[u8], stack: &mut [u8], h: usize, at: usize) -> Result<Onward, Unparsed>
    requires { CanTurn (triples codes.now) stack.old at h }
    ensures { Followed (triples codes.now) stack.old at h stack.new result }
{
    let k = read_phrases::kind_at(codes, at);
    let top = h - 1;
    let f = stack[top];
    if k == 10 {
        if f != 1 {
            return Err(Unparsed::Odd);
        }
        stack[top] = 2;
        let p = read_ends::hidden_end(codes, at + 1);
        match p {
            Phrase::To {
                rest,
                count: _count,
            } => {
                return Ok(Onward::Next {
                    at: rest,
                    height: h,
                });
            }
            Phrase::Odd => {
                return Err(Unparsed::Odd);
            }
        }
    }
    if k < 11 {
        return Err(Unparsed::Odd);
    }
    if 13 < k {
        return Err(Unparsed::Odd);
    }
    if f == 1 {
        return Err(Unparsed::Odd);
    }
    stack[top] = 1;
    Ok(Onward::Next {
        at: at + 1,
        height: h,
    })
}

// Behind a simple statement: brackets close until a comma, an operator or a `;` comes, or the outer statement ends.
fn follow(codes: &[u8], stack: &mut [u8], h: usize, at: usize) -> Result<Onward, Unparsed>
    requires { CanFollow (triples codes.now) stack.old at h }
    ensures { Followed (triples codes.now) stack.old at h stack.new result }
{
    let mut i = at;
    let mut d = h;
    loop {
        let k = read_phrases::kind_at(codes, i);
        if k == 5 {
            return Ok(Onward::Next {
                at: i + 1,
                height: d,
            });
        }
        if d == 0 {
            return Ok(Onward::Done { rest: i });
        }
        if k != 4 {
            return turn(codes, stack, d, i);
        }
        d -= 1;
        if 1 < stack[d] {
            return Err(Unparsed::Odd);
        }
        i += 1;
    }
}

// A simple statement, or the beginning of a bracket, and what follows.
fn step(codes: &[u8], stack: &mut [u8], h: usize, at: usize) -> Result<Onward, Unparsed>
    requires { CanStep (triples codes.now) stack.old h }
    ensures { Stepped (triples codes.now) stack.old at h stack.new result }
{
    let s = read_simples::simple_at(codes, at);
    match s {
        Simple::Atom { kind: _kind, rest } => follow(codes, stack, h, rest),
        Simple::Program {
            name: _name,
            first: _first,
            count: _count,
            rest,
        } => follow(codes, stack, h, rest),
        Simple::Bracket { inside } => {
            if stack.len() <= h {
                return Err(Unparsed::Short);
            }
            stack[h] = 0;
            let p = read_ends::hidden_end(codes, inside);
            match p {
                Phrase::To {
                    rest,
                    count: _count,
                } => Ok(Onward::Next {
                    at: rest,
                    height: h + 1,
                }),
                Phrase::Odd => Err(Unparsed::Odd),
            }
        }
        Simple::Odd => Err(Unparsed::Odd),
    }
}

// Where the statement that begins at `at` ends.
pub fn statement_end(codes: &[u8], stack: &mut [u8], at: usize) -> Result<usize, Unparsed>
    requires { Known (triples codes.now) }
    ensures { StatementTo (triples codes.now) stack.old at result }
{
    let mut i = at;
    let mut h = 0;
    loop {
        let onward = step(codes, stack, h, i)?;
        match onward {
            Onward::Next { at: next, height } => {
                i = next;
                h = height;
            }
            Onward::Done { rest } => {
                return Ok(rest);
            }
        }
    }
}
