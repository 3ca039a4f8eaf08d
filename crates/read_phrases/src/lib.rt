// Kinds and numbers of tokens in a text's table, and lists of variables; what simple statements there are. A token is a number of three
// bytes: its kind, and 256 times the number of its name.
#![tactic(auto)]

ghost use Rattle.std.specs.Prelude.{◌≡◌};
ghost use Rattle.mem_numbers.specs.Numbers.{triples};
ghost use Rattle.read_phrases.specs.Codes.{kind_at, number_at};
ghost use Rattle.read_phrases.specs.Phrases.{VariablesTo};

// A list of `count` names and the position behind it, or there is none.
#[derive(Clone, Copy)]
pub enum Phrase {
    To { rest: usize, count: usize },
    Odd,
}

// The four kinds of constraint atoms. Variables and labels are numbers of names; a constructor's arguments are `count` names,
// at every second token from `first` on.
#[derive(Clone, Copy)]
pub enum Constraint {
    True,
    Fail,
    Same {
        left: usize,
        right: usize,
    },
    Made {
        var: usize,
        label: usize,
        first: usize,
        count: usize,
    },
}

// A simple statement and the position behind it; of a bracket, the position behind its opening; or there is none.
#[derive(Clone, Copy)]
pub enum Simple {
    Atom {
        kind: Constraint,
        rest: usize,
    },
    Program {
        name: usize,
        first: usize,
        count: usize,
        rest: usize,
    },
    Bracket {
        inside: usize,
    },
    Odd,
}

// The kind of the token at `i`; 255 past the end.
pub fn kind_at(codes: &[u8], i: usize) -> usize
    ensures { result ≡ kind_at (triples codes.now) i }
{
    if i < mem_numbers::count::<3>(codes) {
        return mem_numbers::get::<3>(codes, i) % 256;
    }
    255
}

// The number of the name of the token at `i`; 0 past the end.
pub fn number_at(codes: &[u8], i: usize) -> usize
    ensures { result ≡ number_at (triples codes.now) i }
{
    if i < mem_numbers::count::<3>(codes) {
        return mem_numbers::get::<3>(codes, i) / 256;
    }
    0
}

// One variable or more, parted by commas.
pub fn variables_end(codes: &[u8], at: usize) -> Phrase
    ensures { VariablesTo (triples codes.now) at result }
{
    let mut i = at;
    let mut m = 0;
    loop {
        if kind_at(codes, i) != 2 {
            return Phrase::Odd;
        }
        i += 1;
        m += 1;
        if kind_at(codes, i) != 5 {
            return Phrase::To { rest: i, count: m };
        }
        i += 1;
    }
}
