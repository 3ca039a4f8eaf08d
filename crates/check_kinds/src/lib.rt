// What words say of boxes, locals and variables.
#![tactic(auto)]

ghost use Rattle.std.specs.Prelude.{◌≡◌};
ghost use Rattle.check_words.specs.Frees.{is_and, is_locals};
ghost use Rattle.check_kinds.specs.Seen.{seen};

use mem_sorts::{Kind, Sort};
use mem_variables::Variable;
use mem_words::Word;

// Whether the kind is an and-box's.
pub fn boxes(k: Kind) -> bool
    ensures { result ≡ is_and k }
{
    matches!(k, Kind::And)
}

// Whether the sort is that of an and-box's locals.
pub fn lists(s: Sort) -> bool
    ensures { result ≡ is_locals s }
{
    matches!(s, Sort::Locals)
}

// The variable that the word is, if it is one.
pub fn variable(w: Word) -> Option<Variable>
    ensures { result ≡ seen w }
{
    match w {
        Word::Free(x) => Some(Variable(x)),
        _ => None,
    }
}
