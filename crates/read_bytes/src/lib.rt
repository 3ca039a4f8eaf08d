// The classes of bytes.
#![tactic(auto)]

ghost use Rattle.std.specs.Prelude.{◌≡◌};
ghost use Rattle.akl.specs.Token.{class_of, word_class, digit_class};
ghost use Rattle.read_bytes.specs.Meant.{class};

// The classes of bytes.
#[derive(Clone, Copy, Debug, PartialEq, Eq)]
pub enum Class {
    Small,
    Capital,
    Digit,
    Underscore,
    Blank,
    Mark,
    Other,
}

// The class of a byte.
pub fn class_of(b: u8) -> Class
    ensures { class result ≡ class_of b }
{
    match b {
        b'a'..=b'z' => Class::Small,
        b'A'..=b'Z' => Class::Capital,
        b'0'..=b'9' => Class::Digit,
        b'_' => Class::Underscore,
        b' ' | b'\t' | b'\n' => Class::Blank,
        b'('..=b')' | b','..=b'.' | b':'..=b';' | b'='..=b'?' | b'|' => Class::Mark,
        _ => Class::Other,
    }
}

// Whether a name or a variable may go on with this byte.
pub fn is_word(b: u8) -> bool
    ensures { result ≡ word_class (class_of b) }
{
    matches!(
        class_of(b),
        Class::Small | Class::Capital | Class::Digit | Class::Underscore
    )
}

// Whether a byte is a digit.
pub fn is_digit(b: u8) -> bool
    ensures { result ≡ digit_class (class_of b) }
{
    matches!(class_of(b), Class::Digit)
}
