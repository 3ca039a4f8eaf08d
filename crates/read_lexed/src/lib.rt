// The code of a token: the number of its kind + 256 * the number of its name, which is 0 for a mark. A text is read as a table of codes.
#![tactic(auto)]

ghost use Rattle.std.specs.Prelude.{◌≡◌};
ghost use Rattle.mem_numbers.specs.Numbers.{shorts, triples};
ghost use Rattle.read_lexed.specs.Codes.{kind_no};
ghost use Rattle.read_lexed.specs.Encoded.{CanCode, Encoded};

use read_tokens::Kind;

// Why a text has no table of codes: some bytes are no token, or a table is too short.
#[derive(Clone, Copy, Debug, PartialEq, Eq)]
pub enum NotLexed {
    Bad,
    Full,
}

// The number of a kind.
pub fn kind_no(kind: Kind) -> usize
    ensures { result ≡ kind_no kind }
{
    match kind {
        Kind::Name => 0,
        Kind::Digits => 1,
        Kind::Variable => 2,
        Kind::OpenBracket => 3,
        Kind::CloseBracket => 4,
        Kind::Comma => 5,
        Kind::FullStop => 6,
        Kind::Colon => 7,
        Kind::Defines => 8,
        Kind::Equals => 9,
        Kind::Semicolon => 10,
        Kind::Wait => 11,
        Kind::Cond => 12,
        Kind::Commit => 13,
    }
}

// The code of the token of `len` bytes from `at` on, and the count of nodes; None where there is no room for its name.
pub fn code(
    text: &[u8],
    kind: Kind,
    at: usize,
    len: usize,
    cells: &mut [u8],
    heads: &mut [u8],
    nexts: &mut [u8],
    n: usize,
) -> Option<(usize, usize)>
    requires { CanCode text.now at len (triples cells.old) (shorts heads.old) (shorts nexts.old) n }
    ensures { Encoded text.now kind at len (triples cells.old) (shorts heads.old) (shorts nexts.old) n (triples cells.new) (shorts heads.new) (shorts nexts.new) result }
{
    let no = kind_no(kind);
    if 3 <= no {
        return Some((no, n));
    }
    let (i, m) = read_names::intern(text, at, len, cells, heads, nexts, n)?;
    Some((no + i * 256, m))
}
