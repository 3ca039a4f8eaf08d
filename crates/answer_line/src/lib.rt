// The text of an answer put into a lent slice, or only counted: its bindings, one behind the other.
#![tactic(auto)]

ghost use Rattle.std.specs.Prelude.{◌≡◌, map, [], ◌<◌, length};
ghost use Rattle.akl.specs.Base.{range};
ghost use Rattle.akl.specs.Answers.{terms, line_text};
ghost use Rattle.mem_numbers.specs.Numbers.{triples};
ghost use Rattle.read_nodes.specs.Spell.{named};
ghost use Rattle.work_tables.specs.Tables.{cells_of, pos_of, log_of, Laid, Logged};
ghost use Rattle.answer_walk.specs.Numbered.{Numbered};
ghost use Rattle.answer_emit.specs.Put.{Put};
ghost use Rattle.answer_stack.specs.Slots.{numbers_of, Answered};
ghost use Rattle.answer_turn.specs.Turning.{term_in, Shown};
ghost use Rattle.answer_print.specs.Printing.{CanPrint};
ghost use Rattle.answer_line.specs.Lined.{CanLine, Bound, whole};

use answer_turn::Wrote;
use mem_variables::Variable;

// One binding: the name of node `v`, ` = `, and the term of `x`, with `count` unknowns met before it.
fn binding(
    w: &mut [u8],
    used: usize,
    table: &[u8],
    v: usize,
    x: Variable,
    count: usize,
    out: &mut [u8],
    at: usize,
    write: bool,
) -> Wrote
    requires { Laid w.old × Logged used × Shown (triples table.now) (log_of used w.old) (pos_of w.old) (cells_of w.old) × CanPrint (numbers_of w.old) x.0 count out.old at × (v < length (triples table.now)) }
    ensures { Bound (triples table.now) (log_of used w.old) (pos_of w.old) (cells_of w.old) (numbers_of w.old) v x.0 count out.old at write (numbers_of w.new) out.new result.count result.at × Answered w.old w.new }
{
    let a = answer_emit::name(table, v, out, at, write);
    let b = answer_emit::equals(out, a, write);
    answer_print::term(w, used, table, x, count, out, b, write)
}

// The bindings of the `n` query variables, `n` not 0, where no unknown was met. It stops where the text no longer fits: the
// numbers of unknowns are not known from there on.
fn bindings(
    w: &mut [u8],
    used: usize,
    table: &[u8],
    vars: &[u8],
    n: usize,
    out: &mut [u8],
    write: bool,
) -> usize
    requires { Laid w.old × Logged used × Shown (triples table.now) (log_of used w.old) (pos_of w.old) (cells_of w.old) × CanLine (triples table.now) (triples vars.now) × Numbered (numbers_of w.old) [] 0 65535 × (n ≡ length (triples vars.now)) × (0 < n) }
    ensures { Put (whole (triples table.now) (triples vars.now) (log_of used w.old) (pos_of w.old) (cells_of w.old)) write out.old 0 out.new result × Answered w.old w.new }
{
    let last = n - 1;
    let mut c = 0;
    let mut a = 0;
    for i in 0..last {
        let v = mem_numbers::get::<3>(vars, i);
        let t = binding(w, used, table, v, Variable(i), c, out, a, write);
        if out.len() < t.at {
            return t.at;
        }
        c = t.count;
        a = answer_emit::comma(out, t.at, write);
    }
    let v = mem_numbers::get::<3>(vars, last);
    let t = binding(w, used, table, v, Variable(last), c, out, a, write);
    t.at
}

// The line of an answer: `vars` has the names of the query variables as nodes of `table`, and the variable of the i-th is i.
pub fn line(
    w: &mut [u8],
    used: usize,
    table: &[u8],
    vars: &[u8],
    out: &mut [u8],
    write: bool,
) -> usize
    requires { Laid w.old × Logged used × Shown (triples table.now) (log_of used w.old) (pos_of w.old) (cells_of w.old) × CanLine (triples table.now) (triples vars.now) }
    ensures { Put (line_text (map (named (triples table.now)) (triples vars.now)) (terms (term_in (triples table.now) (log_of used w.old) (pos_of w.old) (cells_of w.old)) (range 0 (length (triples vars.now))))) write out.old 0 out.new result × Answered w.old w.new }
{
    answer_stack::clear(w);
    let n = mem_numbers::count::<3>(vars);
    if n == 0 {
        return answer_emit::truth(out, 0, write);
    }
    bindings(w, used, table, vars, n, out, write)
}
