// A program from its table of tokens: its refusal, or the heads and the words of its definitions.
#![tactic(auto)]

ghost use Rattle.akl.specs.Reader.{fault};
ghost use Rattle.mem_numbers.specs.Numbers.{shorts, triples};
ghost use Rattle.mem_words.specs.Words.{words};
ghost use Rattle.read_pieces.specs.Worst.{Lowest};
ghost use Rattle.read_programs.specs.Checks.{CanCheck, CheckedTo};

use read_heads::Headed;
use read_pieces::Read;
use refusals::Refusal;

// How many definitions a program has, how many words, and how many nodes the names; or its refusal; or a table is too short.
#[derive(Clone, Copy)]
pub enum Programmed {
    Read {
        definitions: usize,
        words: usize,
        names: usize,
    },
    Refused(Refusal),
    Short,
}

// The refusal of a program, 4 where a name and arity is defined twice, and 8 for none.
fn defined(twice: bool) -> usize
    ensures { Lowest result (fault 4 twice) }
{
    if twice {
        return 4;
    }
    8
}

// The tokens of a program: the heads of its definitions written to `heads`, their words to `out`. `names` is handed back.
pub fn checked(
    codes: &[u8],
    stack: &mut [u8],
    heads: &mut [u8],
    out: &mut [u8],
    binds: &mut [u8],
    saves: &mut [u8],
    order: &mut [u8],
    names: usize,
) -> Programmed
    requires { CanCheck (triples codes.now) (shorts binds.old) (shorts order.old) }
    ensures { CheckedTo (triples codes.now) stack.old (triples heads.old) (shorts binds.old) (shorts saves.old) (words out.old) names (triples heads.new) (words out.new) result }
{
    binds.fill(0);
    let h = read_heads::heads_of(codes, stack, heads);
    match h {
        Headed::All { count, twice } => {
            let e = 3 * count;
            let b = read_bodies::bodies(codes, &heads[..e], out, binds, saves, order);
            match b {
                Read::Done {
                    at: _at,
                    out: k,
                    known: _known,
                    fault,
                } => {
                    let low = read_pieces::lower(defined(twice), fault);
                    if low < 8 {
                        return Programmed::Refused(refusals::of_tree(low));
                    }
                    let n = read_compact::compact(out, k);
                    Programmed::Read {
                        definitions: count,
                        words: n,
                        names,
                    }
                }
                Read::Three => Programmed::Refused(Refusal::TooMany),
                Read::Odd => Programmed::Refused(Refusal::NotOfGrammar), // the grammar was decided before
                Read::Full => Programmed::Short,
            }
        }
        Headed::Many => Programmed::Refused(Refusal::TooMany),
        Headed::Odd => Programmed::Refused(Refusal::NotOfGrammar), // as above
        Headed::Short => Programmed::Short,
    }
}
