// Which rules can lead to a configuration with more parts, and which of them put a piece at their place.
#![tactic(auto)]

ghost use Rattle.std.specs.Prelude.{◌≡◌};
ghost use Rattle.step_fewer.specs.Adding.{adds_parts, itself};

// Whether rule `r` is one of those that can add parts.
pub fn adds(r: usize) -> bool
    ensures { result ≡ adds_parts r }
{
    if r == 2 {
        return true; // a definition
    }
    if r == 5 {
        return true; // guards
    }
    if r == 12 {
        return true; // copies of an and-box
    }
    if r == 13 {
        return true; // copies of a body
    }
    false
}

// Whether the rule is one of those that can add parts and rewrite what stands at their place itself; 12 and 13 rewrite the box around it.
pub fn at_itself(rule: usize) -> bool
    ensures { result ≡ itself rule }
{
    if rule == 2 {
        return true; // the body for the atom
    }
    if rule == 5 {
        return true; // the choice-box for the choice
    }
    false
}
