// Simple statements that are no brackets, checked and written as words: constraint atoms and program atoms.
#![tactic(auto)]

ghost use Rattle.std.specs.Prelude.{◌≡◌};
ghost use Rattle.mem_numbers.specs.Numbers.{shorts, triples};
ghost use Rattle.mem_words.specs.Words.{words};
ghost use Rattle.read_laid.specs.Shapes.{arguments_of, CanConstraint, CanProgram};
ghost use Rattle.read_atoms.specs.Answers.{FaultOf, AnswerTo};
ghost use Rattle.read_atoms.specs.Subjects.{ConstraintRead, ProgramRead, missing_of};

use read_phrases::Constraint;
use read_pieces::Read;
use read_varwords::{Unwritten, Vars};

// How many arguments a constraint's label has.
fn arguments(kind: Constraint) -> usize
    ensures { result ≡ arguments_of kind }
{
    match kind {
        Constraint::Made { count, .. } => count,
        _ => 0,
    }
}

// The refusal of an atom: `low`, or 6 where that is lower and a variable is not bound.
fn lowest(free: bool, low: usize) -> usize
    ensures { FaultOf free low result }
{
    if free {
        return read_pieces::lower(low, 6);
    }
    low
}

// The answer for words that were written.
fn answer(v: Result<Vars, Unwritten>, rest: usize, low: usize) -> Read
    ensures { AnswerTo v rest low result }
{
    match v {
        Ok(u) => {
            let f = lowest(u.free, low);
            Read::Done {
                at: rest,
                out: u.out,
                known: u.known,
                fault: f,
            }
        }
        Err(e) => match e {
            Unwritten::Many => Read::Three,
            Unwritten::Full => Read::Full,
        },
    }
}

// A constraint atom, which ends before `rest`: its words from `k` on.
pub fn constraint(
    codes: &[u8],
    query: bool,
    out: &mut [u8],
    binds: &[u8],
    order: &mut [u8],
    kind: Constraint,
    rest: usize,
    k: usize,
    q: usize,
) -> Read
    requires { CanConstraint (triples codes.now) (shorts binds.now) (shorts order.old) (words out.old) kind k q }
    ensures { ConstraintRead query (triples codes.now) (shorts binds.now) (shorts order.old) (words out.old) kind rest k q (shorts order.new) (words out.new) result }
{
    if 8 < arguments(kind) {
        return Read::Three;
    }
    let v = read_laid::atom(codes, kind, out, k, binds, order, q, query);
    answer(v, rest, 8)
}

// 5 where `head` is not among the heads, else 8.
fn missing(heads: &[u8], head: usize) -> usize
    ensures { result ≡ missing_of head (triples heads.now) }
{
    let n = mem_numbers::count::<3>(heads);
    if read_lookups::listed(heads, n, head) {
        return 8;
    }
    5
}

// A program atom, which ends before `rest`: its words from `k` on. Each head is 256 times the number of its name, and the
// number of its parameters.
pub fn program(
    codes: &[u8],
    heads: &[u8],
    query: bool,
    out: &mut [u8],
    binds: &[u8],
    order: &mut [u8],
    name: usize,
    first: usize,
    count: usize,
    rest: usize,
    k: usize,
    q: usize,
) -> Read
    requires { CanProgram (triples codes.now) (shorts binds.now) (shorts order.old) (words out.old) name first count k q }
    ensures { ProgramRead query (triples codes.now) (shorts binds.now) (shorts order.old) (triples heads.now) (words out.old) name first count rest k q (shorts order.new) (words out.new) result }
{
    if 8 < count {
        return Read::Three;
    }
    let low = missing(heads, name * 256 + count);
    let v = read_laid::called(codes, name, first, count, out, k, binds, order, q, query);
    answer(v, rest, low)
}
