// Whether bytes are a program text: refusals 1 and 2.
#![tactic(auto)]

ghost use Rattle.mem_numbers.specs.Numbers.{shorts, triples};
ghost use Rattle.akl.specs.Limits.{program_bytes};
ghost use Rattle.akl.specs.Parse.{parse_program};
ghost use Rattle.read_lexicon.specs.Lexicon.{Lexicon};
ghost use Rattle.read_texts.specs.Texts.{Answered};

use read_lexed::NotLexed;
use read_statements::Unparsed;
use read_texts::Readable;

// Whether a text is a program.
pub fn program_text(
    text: &[u8],
    codes: &mut [u8],
    cells: &mut [u8],
    heads: &mut [u8],
    nexts: &mut [u8],
    stack: &mut [u8],
    n: usize,
) -> Readable
    requires { Lexicon (triples cells.old) (shorts heads.old) (shorts nexts.old) n }
    ensures { Answered program_bytes parse_program text.now (triples codes.old) (triples cells.old) (shorts heads.old) (shorts nexts.old) n stack.old (triples codes.new) (triples cells.new) (shorts heads.new) (shorts nexts.new) result }
{
    if 16384 < text.len() {
        return Readable::Long;
    }
    let l = read_tokenise::tokenise(text, codes, cells, heads, nexts, n);
    match l {
        Ok((k, m)) => {
            let e = 3 * k;
            let v = read_shapes::program_is(&codes[..e], stack);
            match v {
                Ok(()) => Readable::Yes {
                    tokens: k,
                    names: m,
                },
                Err(Unparsed::Odd) => Readable::Odd, // the tokens are no program
                Err(Unparsed::Short) => Readable::Short, // too few bytes for the open brackets
            }
        }
        Err(NotLexed::Bad) => Readable::Odd,
        Err(NotLexed::Full) => Readable::Short, // too few codes or nodes
    }
}
