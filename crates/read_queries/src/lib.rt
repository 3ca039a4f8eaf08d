// A query read from its bytes: its refusal, or its variables by first free occurrence and the words of its statement.
#![tactic(auto)]

ghost use Rattle.mem_numbers.specs.Numbers.{shorts, triples};
ghost use Rattle.mem_words.specs.Words.{words};
ghost use Rattle.read_queries.specs.Checks.{CanCheck, CheckedTo};
ghost use Rattle.read_queries.specs.Queries.{CanQuery, QueryTo};

use read_pieces::Read;
use read_texts::Readable;
use refusals::Refusal;

// How many variables a query has, how many words its statement, and how many nodes the names; or its refusal; or a table is too
// short.
#[derive(Clone, Copy)]
pub enum Queried {
    Read {
        variables: usize,
        words: usize,
        names: usize,
    },
    Refused(Refusal),
    Short,
}

// The tokens of a query: its statement checked, and written to `out`. `names` is handed back.
fn checked(
    codes: &[u8],
    heads: &[u8],
    out: &mut [u8],
    binds: &mut [u8],
    saves: &mut [u8],
    order: &mut [u8],
    names: usize,
) -> Queried
    requires { CanCheck (triples codes.now) (shorts binds.old) (shorts order.old) (triples heads.now) }
    ensures { CheckedTo (triples codes.now) (shorts binds.old) (shorts saves.old) (shorts order.old) (triples heads.now) (words out.old) names (shorts order.new) (words out.new) result }
{
    binds.fill(0);
    let s = read_nested::statement(codes, heads, true, out, binds, saves, order, 0, 0, 0, 0, 0);
    match s {
        Read::Done {
            at: _at,
            out: k,
            known,
            fault,
        } => {
            if fault < 8 {
                return Queried::Refused(refusals::of_tree(fault));
            }
            let n = read_compact::compact(out, k);
            Queried::Read {
                variables: known,
                words: n,
                names,
            }
        }
        Read::Three => Queried::Refused(Refusal::TooMany),
        Read::Odd => Queried::Refused(Refusal::NotOfGrammar), // the grammar was decided before
        Read::Full => Queried::Short,
    }
}

// Reads a query. `heads` has the program's definitions: the number of each name * 256 + its parameters.
pub fn query(
    text: &[u8],
    codes: &mut [u8],
    cells: &mut [u8],
    firsts: &mut [u8],
    nexts: &mut [u8],
    stack: &mut [u8],
    n: usize,
    heads: &[u8],
    out: &mut [u8],
    binds: &mut [u8],
    saves: &mut [u8],
    order: &mut [u8],
) -> Queried
    requires { CanQuery (triples cells.old) (shorts firsts.old) (shorts nexts.old) n (triples heads.now) }
    ensures { QueryTo text.now (triples codes.old) (triples cells.old) (shorts firsts.old) (shorts nexts.old) stack.old n (triples heads.now) (words out.old) (shorts binds.old) (shorts saves.old) (shorts order.old) (triples cells.new) (shorts firsts.new) (shorts nexts.new) (words out.new) (shorts order.new) result }
{
    let r = read_texts::query_text(text, codes, cells, firsts, nexts, stack, n);
    match r {
        Readable::Yes { tokens, names } => {
            if mem_numbers::count::<2>(binds) < names {
                return Queried::Short;
            }
            if mem_numbers::count::<2>(order) < 16 {
                return Queried::Short;
            }
            let e = 3 * tokens;
            let b = 2 * names;
            checked(
                &codes[..e],
                heads,
                out,
                &mut binds[..b],
                saves,
                order,
                names,
            )
        }
        Readable::Long => Queried::Refused(Refusal::TooLong),
        Readable::Odd => Queried::Refused(Refusal::NotOfGrammar),
        Readable::Short => Queried::Short,
    }
}
