// Bytes to tokens: a cursor that moves forward by whole tokens, the longest first.
#![tactic(auto)]

ghost use Rattle.std.specs.Prelude.{◌≡◌, ◌≤◌, ◌<◌, ◌+◌, length, get_or};
ghost use Rattle.akl.specs.Token.{word_class, digit_class};
ghost use Rattle.read_tokens.specs.Kinds.{sign_of, placed, spelled_of};
ghost use Rattle.read_tokens.specs.Runs.{Ends};
ghost use Rattle.read_tokens.specs.Next.{Reads};

use read_bytes::Class;

// What a token is, its bytes aside.
#[derive(Clone, Copy)]
pub enum Kind {
    Name,
    Digits,
    Variable,
    OpenBracket,
    CloseBracket,
    Comma,
    FullStop,
    Colon,
    Defines,
    Equals,
    Semicolon,
    Wait,
    Cond,
    Commit,
}

// A mark at the head of some bytes: of one byte, or of two.
#[derive(Clone, Copy)]
enum Sign {
    One(Kind),
    Two(Kind),
}

// A reading position.
#[derive(Clone, Copy)]
pub struct Cursor(pub usize);

// What reading at a cursor finds: a token of `len` bytes from `at` on, with the cursor behind it; the end of the text; or
// bytes that are no token. An enum of its own: as a Result of an Option, each of its three answers would have to be wrapped twice.
#[derive(Clone, Copy)]
pub enum Next {
    Token {
        kind: Kind,
        at: usize,
        len: usize,
        rest: Cursor,
    },
    End,
    Bad,
}

// The mark that `b` begins, if it begins one, where `then` is the byte behind it: the longest first.
fn sign_of(b: u8, then: u8) -> Option<Sign>
    ensures { result ≡ sign_of b then }
{
    match b {
        b'(' => Some(Sign::One(Kind::OpenBracket)),
        b')' => Some(Sign::One(Kind::CloseBracket)),
        b',' => Some(Sign::One(Kind::Comma)),
        b'-' => {
            if then == b'>' {
                Some(Sign::Two(Kind::Cond))
            } else {
                None
            }
        }
        b'.' => Some(Sign::One(Kind::FullStop)),
        b':' => {
            if then == b'=' {
                Some(Sign::Two(Kind::Defines))
            } else {
                Some(Sign::One(Kind::Colon))
            }
        }
        b';' => Some(Sign::One(Kind::Semicolon)),
        b'=' => Some(Sign::One(Kind::Equals)),
        b'?' => Some(Sign::One(Kind::Wait)),
        b'|' => Some(Sign::One(Kind::Commit)),
        _ => None,
    }
}

// The end of the run of letters, digits and underscores from `at` on.
fn word_end(s: &[u8], at: usize) -> usize
    requires { at ≤ length s.now }
    ensures { Ends word_class s.now at result }
{
    for i in at..s.len() {
        if !read_bytes::is_word(s[i]) {
            return i;
        }
    }
    s.len()
}

// The end of the run of digits from `at` on. A function of its own: taking the test as a closure, it would have to take its class, too, as
// a ghost argument.
fn digits_end(s: &[u8], at: usize) -> usize
    requires { at ≤ length s.now }
    ensures { Ends digit_class s.now at result }
{
    for i in at..s.len() {
        if !read_bytes::is_digit(s[i]) {
            return i;
        }
    }
    s.len()
}

// The token of the bytes from `at` to `end`, which are too many for a name from 33 on.
fn spelled(kind: Kind, at: usize, end: usize) -> Next
    requires { at ≤ end }
    ensures { result ≡ spelled_of kind at end }
{
    let len = end - at;
    if len <= 32 {
        Next::Token {
            kind,
            at,
            len,
            rest: Cursor(end),
        }
    } else {
        Next::Bad
    }
}

// The byte at `i`, and 0, which begins no token, where there is none.
fn byte_at(s: &[u8], i: usize) -> u8
    ensures { result ≡ get_or s.now i 0 }
{
    if i < s.len() { s[i] } else { 0 }
}

// The mark at `at`.
fn mark_at(s: &[u8], at: usize) -> Next
    requires { at < length s.now }
    ensures { result ≡ placed at (sign_of (get_or s.now at 0) (get_or s.now (at + 1) 0)) }
{
    let n = at + 1;
    let then = byte_at(s, n);
    let Some(sign) = sign_of(s[at], then) else {
        return Next::Bad;
    };
    match sign {
        Sign::One(kind) => Next::Token {
            kind,
            at,
            len: 1,
            rest: Cursor(n),
        },
        Sign::Two(kind) => Next::Token {
            kind,
            at,
            len: 2,
            rest: Cursor(n + 1),
        },
    }
}

impl Cursor {
    // The next token, behind the blanks before it. A cursor beyond the end reads `End`.
    pub fn next(self, s: &[u8]) -> Next
        ensures { Reads s.now self.0 result }
    {
        let mut at = self.0;
        loop {
            if s.len() <= at {
                return Next::End;
            }
            let c = read_bytes::class_of(s[at]);
            match c {
                Class::Blank => {
                    at += 1;
                }
                Class::Small => {
                    let end = word_end(s, at);
                    return spelled(Kind::Name, at, end);
                }
                Class::Capital => {
                    let end = word_end(s, at);
                    return spelled(Kind::Variable, at, end);
                }
                Class::Digit => {
                    let end = digits_end(s, at);
                    return spelled(Kind::Digits, at, end);
                }
                Class::Mark => {
                    return mark_at(s, at);
                }
                Class::Underscore | Class::Other => {
                    return Next::Bad;
                }
            }
        }
    }
}
