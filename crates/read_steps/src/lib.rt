// A number of a steps text, whose lines have three decimal numbers below 2^32 for each step.
#![tactic(auto)]

ghost use Rattle.std.specs.Prelude.{◌≡◌};
ghost use Rattle.read_steps.specs.Numbers.{CanAdd, capped, Numbered};

use read_tokens::Cursor;

// A place's number in a configuration.
#[derive(Clone, Copy)]
pub struct Place(pub u64);

// A step as its line says it.
#[derive(Clone, Copy)]
pub struct Step {
    pub rule: u64,
    pub place: Place,
    pub argument: u64,
}

fn wide(b: u8) -> u64
    ensures { result ≡ b }
{
    b as u64
}

// The number n with the digit b behind it. From 2^32 on it stays as it is, so that it never wraps and is still too large.
fn with_digit(n: u64, b: u8) -> u64
    requires { CanAdd n b }
    ensures { result ≡ capped n b }
{
    if n < 4294967296 {
        n * 10 + (wide(b) - 48)
    } else {
        n
    }
}

// The decimal number from `at` on, which the byte `follows` must follow, and the position behind that byte.
pub fn read_number(s: &[u8], at: Cursor, follows: u8) -> Option<(u64, Cursor)>
    ensures { Numbered s.now at.0 follows result }
{
    let from = at.0;
    let mut n: u64 = 0;
    for i in from..s.len() {
        let b = s[i];
        let more = read_bytes::is_digit(b);
        if more {
            n = with_digit(n, b);
        } else {
            if i == from {
                return None; // no digit
            }
            if 4294967296 <= n {
                return None;
            }
            if b != follows {
                return None;
            }
            return Some((n, Cursor(i + 1)));
        }
    }
    None // nothing follows
}
