// A search over the applications of a term, arguments first: it numbers the unknowns by first appearance, and makes the length of each
// application's text known when its arguments are done. Each application is entered once, and each of its arguments looked at
// twice, to be visited and to be measured, however long the text is.
#![tactic(auto)]

ghost use Rattle.std.specs.Prelude.{◌<◌};
ghost use Rattle.mem_numbers.specs.Numbers.{triples};
ghost use Rattle.work_tables.specs.Tables.{cells_of, pos_of, log_of, Laid, Logged};
ghost use Rattle.answer_stack.specs.Slots.{numbers_of, places_of, begun_of, Answered};
ghost use Rattle.answer_known.specs.Known.{known_of, Counted};
ghost use Rattle.answer_turn.specs.Turning.{Shown, CanNumber};
ghost use Rattle.answer_visit.specs.Visiting.{Numbering, CanBegin, Begun, CanTurn, Turned, Finished, CanVisit, Visited};

use mem_variables::Variable;

// How the search goes on: the height of the stack, and the unknowns that were met.
#[derive(Clone, Copy)]
struct Stand {
    high: usize,
    count: usize,
}

// Numbers the unbound class `r` if it was not met before. Answers how many were met.
fn meet(w: &mut [u8], r: Variable, count: usize) -> usize
    requires { CanNumber w.old r.0 count }
    ensures { Numbering w.old r.0 count w.new result }
{
    let e = answer_stack::number_get(w, r.0);
    if e == 0 {
        answer_stack::number_put(w, r.0, count + 1);
        return count + 1;
    }
    count
}

// Visits `x`: an unbound class is met, an application whose length is not known is put onto the stack.
fn begin(w: &mut [u8], x: Variable, at: Stand) -> Stand
    requires { Laid w.old × CanBegin (pos_of w.old) (cells_of w.old) (places_of w.old) (begun_of w.old) (numbers_of w.old) (known_of w.old) x.0 at.high at.count }
    ensures { Begun (pos_of w.old) (cells_of w.old) (places_of w.old) (begun_of w.old) (numbers_of w.old) (known_of w.old) x.0 at.high at.count (places_of w.new) (begun_of w.new) (numbers_of w.new) (known_of w.new) result.high result.count × Answered w.old w.new }
{
    let r = work_cells::find(w, x);
    let c = work_trail::cell_get(w, r.0);
    if c % 4 != 2 {
        let n = meet(w, r, at.count);
        return Stand { count: n, ..at };
    }
    let k = c / 256;
    let e = answer_known::known_get(w, k);
    if e != 0 {
        return at;
    }
    answer_stack::push(w, at.high, k, 0);
    Stand {
        high: at.high + 1,
        ..at
    }
}

// The next argument of the application on top is visited; if it has none left, its length becomes known.
fn behind(w: &mut [u8], used: usize, table: &[u8], at: Stand, m: usize) -> Stand
    requires { Laid w.old × Logged used × (m < 4294967294) × Shown (triples table.now) (log_of used w.old) (pos_of w.old) (cells_of w.old) × CanTurn (triples table.now) (log_of used w.old) (pos_of w.old) (cells_of w.old) (places_of w.old) (begun_of w.old) (numbers_of w.old) (known_of w.old) at.high at.count m × (0 < at.high) }
    ensures { Turned (triples table.now) (log_of used w.old) (pos_of w.old) (cells_of w.old) (places_of w.old) (begun_of w.old) (numbers_of w.old) (known_of w.old) at.high at.count m (places_of w.new) (begun_of w.new) (numbers_of w.new) (known_of w.new) result.high result.count × Counted w.old w.new }
{
    let i = at.high - 1;
    let k = answer_stack::place_get(w, i);
    let n = answer_stack::begun_get(w, i);
    let p = work_tables::pos_get(w, k);
    let v = work_tables::peek(w, used, p + 3 + n);
    if !solve_fields::is_var(v) {
        let l = answer_size::application(w, used, table, p, m);
        answer_known::known_put(w, k, l + 1);
        return Stand { high: i, ..at };
    }
    answer_stack::begun_put(w, i, n + 1);
    begin(w, Variable(solve_fields::var_of(v)), at)
}

// Goes on until the stack is empty. Answers how many unknowns were met.
fn finish(w: &mut [u8], used: usize, table: &[u8], at: Stand, m: usize) -> usize
    requires { Laid w.old × Logged used × (m < 4294967294) × Shown (triples table.now) (log_of used w.old) (pos_of w.old) (cells_of w.old) × CanTurn (triples table.now) (log_of used w.old) (pos_of w.old) (cells_of w.old) (places_of w.old) (begun_of w.old) (numbers_of w.old) (known_of w.old) at.high at.count m }
    ensures { Finished (triples table.now) (log_of used w.old) (pos_of w.old) (cells_of w.old) (places_of w.old) (begun_of w.old) (numbers_of w.old) (known_of w.old) at.high at.count m (numbers_of w.new) (known_of w.new) result × Counted w.old w.new }
{
    let mut stand = at;
    while 0 < stand.high {
        stand = behind(w, used, table, stand, m);
    }
    stand.count
}

// Visits `x` and all below it, `count` unknowns being met before. Answers how many were met then.
pub fn visit(w: &mut [u8], used: usize, table: &[u8], x: Variable, count: usize, m: usize) -> usize
    requires { Laid w.old × Logged used × (m < 4294967294) × Shown (triples table.now) (log_of used w.old) (pos_of w.old) (cells_of w.old) × CanVisit (triples table.now) (log_of used w.old) (pos_of w.old) (cells_of w.old) (numbers_of w.old) (known_of w.old) x.0 count m }
    ensures { Visited (triples table.now) (log_of used w.old) (pos_of w.old) (cells_of w.old) (numbers_of w.old) (known_of w.old) x.0 count m (numbers_of w.new) (known_of w.new) result × Counted w.old w.new }
{
    let t = begin(w, x, Stand { high: 0, count });
    finish(w, used, table, t, m)
}
