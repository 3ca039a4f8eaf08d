// A whole text to a table of token codes.
#![tactic(auto)]

ghost use Rattle.mem_numbers.specs.Numbers.{shorts, triples};
ghost use Rattle.read_nodes.specs.Trie.{Trie};
ghost use Rattle.read_lexed.specs.Table.{Tokenised};

use read_lexed::NotLexed;
use read_tokens::{Cursor, Next};

// Codes all tokens of a text: how many codes and nodes there are then.
pub fn tokenise(
    text: &[u8],
    codes: &mut [u8],
    cells: &mut [u8],
    heads: &mut [u8],
    nexts: &mut [u8],
    n: usize,
) -> Result<(usize, usize), NotLexed>
    requires { Trie (triples cells.old) (shorts heads.old) (shorts nexts.old) n }
    ensures { Tokenised text.now (triples codes.old) (triples cells.old) (shorts heads.old) (shorts nexts.old) n (triples codes.new) (triples cells.new) (shorts heads.new) (shorts nexts.new) result }
{
    let mut at: usize = 0;
    let mut k: usize = 0;
    let mut m = n;
    loop {
        let next = Cursor(at).next(text);
        match next {
            Next::End => {
                return Ok((k, m));
            }
            Next::Bad => {
                return Err(NotLexed::Bad);
            }
            Next::Token {
                kind,
                at: from,
                len,
                rest,
            } => {
                if mem_numbers::count::<3>(codes) <= k {
                    return Err(NotLexed::Full);
                }
                let Some((c, l)) = read_lexed::code(text, kind, from, len, cells, heads, nexts, m)
                else {
                    return Err(NotLexed::Full);
                };
                mem_numbers::put::<3>(codes, k, c);
                k += 1;
                m = l;
                at = rest.0;
            }
        }
    }
}
