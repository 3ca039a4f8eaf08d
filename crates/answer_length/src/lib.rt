// The length of an answer's text, counted no further than a bound. Each application is entered once, however often the text shows it.
#![tactic(auto)]

ghost use Rattle.std.specs.Prelude.{◌≡◌, false, map, [], ◌<◌, length};
ghost use Rattle.akl.specs.Base.{range};
ghost use Rattle.akl.specs.Answers.{terms, line_text};
ghost use Rattle.mem_numbers.specs.Numbers.{triples};
ghost use Rattle.read_nodes.specs.Spell.{named};
ghost use Rattle.work_tables.specs.Tables.{cells_of, pos_of, log_of, Laid, Logged};
ghost use Rattle.answer_text.specs.Lengths.{cap};
ghost use Rattle.answer_walk.specs.Numbered.{Numbered};
ghost use Rattle.answer_emit.specs.Put.{Put};
ghost use Rattle.answer_stack.specs.Slots.{numbers_of};
ghost use Rattle.answer_known.specs.Known.{known_of, Counted, NoneKnown};
ghost use Rattle.answer_turn.specs.Turning.{term_in, Shown};
ghost use Rattle.answer_visit.specs.Visiting.{CanVisit};
ghost use Rattle.answer_line.specs.Lined.{CanLine, whole};
ghost use Rattle.answer_length.specs.Long.{BoundLong};

use answer_turn::Wrote;
use mem_variables::Variable;

// The length `at` and that of one binding behind it: the name of node `v`, ` = `, and the term of `x`, with `count` unknowns met before.
fn binding(
    w: &mut [u8],
    used: usize,
    table: &[u8],
    v: usize,
    x: Variable,
    count: usize,
    m: usize,
    at: usize,
) -> Wrote
    requires { Laid w.old × Logged used × (m < 4294967294) × Shown (triples table.now) (log_of used w.old) (pos_of w.old) (cells_of w.old) × CanVisit (triples table.now) (log_of used w.old) (pos_of w.old) (cells_of w.old) (numbers_of w.old) (known_of w.old) x.0 count m × (v < length (triples table.now)) }
    ensures { BoundLong (triples table.now) (log_of used w.old) (pos_of w.old) (cells_of w.old) (numbers_of w.old) (known_of w.old) v x.0 count m at (numbers_of w.new) (known_of w.new) result.count result.at × Counted w.old w.new }
{
    let n = answer_emit::name_length(table, v);
    let a = answer_size::plus(m, at, n);
    let b = answer_size::plus(m, a, 3);
    let c = answer_visit::visit(w, used, table, x, count, m);
    let l = answer_size::measure(w, x, m);
    let e = answer_size::plus(m, b, l);
    Wrote { at: e, count: c }
}

// The length of the bindings of the `n` query variables, `n` not 0, where no unknown was met and no length is known.
fn bindings(w: &mut [u8], used: usize, table: &[u8], vars: &[u8], n: usize, m: usize) -> usize
    requires { Laid w.old × Logged used × (m < 4294967294) × Shown (triples table.now) (log_of used w.old) (pos_of w.old) (cells_of w.old) × CanLine (triples table.now) (triples vars.now) × Numbered (numbers_of w.old) [] 0 65535 × NoneKnown (known_of w.old) × (n ≡ length (triples vars.now)) × (0 < n) }
    ensures { (result ≡ cap m (length (whole (triples table.now) (triples vars.now) (log_of used w.old) (pos_of w.old) (cells_of w.old)))) × Counted w.old w.new }
{
    let last = n - 1;
    let mut c = 0;
    let mut a = 0;
    for i in 0..last {
        let v = mem_numbers::get::<3>(vars, i);
        let t = binding(w, used, table, v, Variable(i), c, m, a);
        c = t.count;
        a = answer_size::plus(m, t.at, 2);
    }
    let v = mem_numbers::get::<3>(vars, last);
    let t = binding(w, used, table, v, Variable(last), c, m, a);
    t.at
}

// The length of the line of an answer, or `m` + 1 if it is more than `m`: `vars` has the names of the query variables as nodes of
// `table`, and the variable of the i-th is i.
fn line_length(w: &mut [u8], used: usize, table: &[u8], vars: &[u8], m: usize) -> usize
    requires { Laid w.old × Logged used × (m < 4294967294) × Shown (triples table.now) (log_of used w.old) (pos_of w.old) (cells_of w.old) × CanLine (triples table.now) (triples vars.now) }
    ensures { (result ≡ cap m (length (line_text (map (named (triples table.now)) (triples vars.now)) (terms (term_in (triples table.now) (log_of used w.old) (pos_of w.old) (cells_of w.old)) (range 0 (length (triples vars.now))))))) × Counted w.old w.new }
{
    answer_known::forget(w);
    let n = mem_numbers::count::<3>(vars);
    if n == 0 {
        return answer_size::plus(m, 0, 4); // `true`
    }
    bindings(w, used, table, vars, n, m)
}

// Where the line of an answer ends in `out`, which is left as it is: its length + 1 if the line is longer. A length is kept in four
// bytes, so in a slice of 4 GiB less two bytes, or more, the text itself is counted.
pub fn text_end(w: &mut [u8], used: usize, table: &[u8], vars: &[u8], out: &mut [u8]) -> usize
    requires { Laid w.old × Logged used × Shown (triples table.now) (log_of used w.old) (pos_of w.old) (cells_of w.old) × CanLine (triples table.now) (triples vars.now) }
    ensures { Put (line_text (map (named (triples table.now)) (triples vars.now)) (terms (term_in (triples table.now) (log_of used w.old) (pos_of w.old) (cells_of w.old)) (range 0 (length (triples vars.now))))) false out.old 0 out.new result × Counted w.old w.new }
{
    if out.len() < 4294967294 {
        return line_length(w, used, table, vars, out.len());
    }
    answer_line::line(w, used, table, vars, out, false)
}
