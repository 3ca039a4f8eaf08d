// The text of a variable's term, put into a lent slice or only counted.
#![tactic(auto)]

ghost use Rattle.mem_numbers.specs.Numbers.{triples};
ghost use Rattle.work_tables.specs.Tables.{cells_of, pos_of, log_of, Laid, Logged};
ghost use Rattle.answer_stack.specs.Slots.{numbers_of, Answered};
ghost use Rattle.answer_turn.specs.Turning.{Shown};
ghost use Rattle.answer_print.specs.Printing.{CanPrint, Printed};

use answer_turn::{Turn, Wrote};
use mem_variables::Variable;

// The term of `x`, with `count` unknowns met before it. It stops where the text no longer fits: a text may be far longer than
// the store.
pub fn term(
    w: &mut [u8],
    used: usize,
    table: &[u8],
    x: Variable,
    count: usize,
    out: &mut [u8],
    at: usize,
    write: bool,
) -> Wrote
    requires { Laid w.old × Logged used × Shown (triples table.now) (log_of used w.old) (pos_of w.old) (cells_of w.old) × CanPrint (numbers_of w.old) x.0 count out.old at }
    ensures { Printed (triples table.now) (log_of used w.old) (pos_of w.old) (cells_of w.old) (numbers_of w.old) x.0 count out.old at write (numbers_of w.new) out.new result.count result.at × Answered w.old w.new }
{
    let mut turn = Turn {
        next: Some(x),
        high: 0,
        count,
        at,
    };
    loop {
        if out.len() < turn.at {
            return Wrote {
                at: turn.at,
                count: turn.count,
            };
        }
        match turn.next {
            Some(y) => turn = answer_turn::begin(
                w, used, table, y, turn.high, turn.count, out, turn.at, write,
            ),
            None => {
                if turn.high == 0 {
                    return Wrote {
                        at: turn.at,
                        count: turn.count,
                    };
                }
                turn = answer_turn::behind(
                    w, used, table, turn.high, turn.count, out, turn.at, write,
                );
            }
        }
    }
}
