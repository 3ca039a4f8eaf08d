// Whether bytes are a query text: short enough, and of the grammar. The table of their tokens is left for whoever reads on.
#![tactic(auto)]

ghost use Rattle.mem_numbers.specs.Numbers.{shorts, triples};
ghost use Rattle.akl.specs.Limits.{query_bytes};
ghost use Rattle.akl.specs.Parse.{parse_query};
ghost use Rattle.read_lexicon.specs.Lexicon.{Lexicon};
ghost use Rattle.read_texts.specs.Texts.{Answered};

use read_lexed::NotLexed;
use read_statements::Unparsed;

// How many tokens a text has, and how many nodes its names; or it is too long; not of the grammar; or a table or the stack is
// too short.
#[derive(Clone, Copy)]
pub enum Readable {
    Yes { tokens: usize, names: usize },
    Long,
    Odd,
    Short,
}

// Whether a text is a query.
pub fn query_text(
    text: &[u8],
    codes: &mut [u8],
    cells: &mut [u8],
    heads: &mut [u8],
    nexts: &mut [u8],
    stack: &mut [u8],
    n: usize,
) -> Readable
    requires { Lexicon (triples cells.old) (shorts heads.old) (shorts nexts.old) n }
    ensures { Answered query_bytes parse_query text.now (triples codes.old) (triples cells.old) (shorts heads.old) (shorts nexts.old) n stack.old (triples codes.new) (triples cells.new) (shorts heads.new) (shorts nexts.new) result }
{
    if 4096 < text.len() {
        return Readable::Long;
    }
    let l = read_tokenise::tokenise(text, codes, cells, heads, nexts, n);
    match l {
        Ok((k, m)) => {
            let e = 3 * k;
            let v = read_shapes::query_is(&codes[..e], stack);
            match v {
                Ok(()) => Readable::Yes {
                    tokens: k,
                    names: m, // those of `true` and `fail` among them
                },
                Err(Unparsed::Odd) => Readable::Odd, // the tokens are no query
                Err(Unparsed::Short) => Readable::Short,
            }
        }
        Err(NotLexed::Bad) => Readable::Odd, // some bytes are no token
        Err(NotLexed::Full) => Readable::Short,
    }
}
