// What reading a piece of a text leads to, and the lower of two refusals.
#![tactic(auto)]

ghost use Rattle.read_pieces.specs.Worst.{Lower};

// What reading a piece leads to: the position behind it, that behind its words, the number of query variables, and the
// lowest refusal due in it (8 for none); refusal 3 at once; what is not of the grammar; or a table is too short.
#[derive(Clone, Copy)]
pub enum Read {
    Done {
        at: usize,
        out: usize,
        known: usize,
        fault: usize,
    },
    Three,
    Odd,
    Full,
}

// The lower of two refusals.
pub fn lower(a: usize, b: usize) -> usize
    ensures { Lower a b result }
{
    if a < b {
        return a;
    }
    b
}
