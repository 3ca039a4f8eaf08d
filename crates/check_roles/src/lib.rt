// What a bracket is to the test of scope, by its first word.
#![tactic(auto)]

ghost use Rattle.std.specs.Prelude.{◌≡◌};
ghost use Rattle.check_roles.specs.Held.{kind_role, role_of, names_word};

use mem_sorts::Kind;
use mem_words::Word;

// An or-box or a bracket of locals, a store or a statement; a member or a choice-box; an and-box; a guarded goal.
#[derive(Clone, Copy, Debug, PartialEq, Eq)]
pub enum Role {
    Clear,
    Plain,
    Boxed,
    Guarding,
}

// What a place is.
fn kind_role(k: Kind) -> Role
    ensures { result ≡ kind_role k }
{
    match k {
        Kind::Or => Role::Clear,
        Kind::And => Role::Boxed,
        Kind::Guarded => Role::Guarding,
        Kind::Member | Kind::Wait | Kind::Cond | Kind::Commit => Role::Plain,
    }
}

// What the bracket is that the word opens.
pub fn role_of(w: Word) -> Role
    ensures { result ≡ role_of w }
{
    match w {
        Word::Place(k) => kind_role(k),
        Word::Inner(_) => Role::Clear,
        _ => Role::Plain,
    }
}

// Whether the word opens the locals of an and-box.
pub fn names(w: Word) -> bool
    ensures { result ≡ names_word w }
{
    match w {
        Word::Inner(s) => check_kinds::lists(s),
        _ => false,
    }
}
