// Hidden lists and operators: the refusals that they give.
#![tactic(auto)]

ghost use Rattle.std.specs.Prelude.{◌≡◌};
ghost use Rattle.read_operators.specs.Binding.{twice_no, Operates, Mixes};

use read_scopes::Binding;

// The refusal that a hidden list gives: 4 for a name that is there twice, 8 for none; 0 where there was no room to bind it.
pub fn twice(b: Binding) -> usize
    ensures { result ≡ twice_no b }
{
    match b {
        Binding::Apart => 8,
        Binding::Twice => 4,
        Binding::Full => 0,
    }
}

// Whether a kind is that of an operator.
pub fn operates(kind: usize) -> bool
    ensures { Operates kind result }
{
    if kind < 11 {
        return false;
    }
    if 13 < kind {
        return false;
    }
    true
}

// The refusal that a clause's operator gives: 7 where it is not that of the first clause.
pub fn mixes(kind: usize, first: usize) -> usize
    ensures { Mixes kind first result }
{
    if kind == first {
        return 8;
    }
    7
}
