// One turn of the traversal that writes a term: a variable, or what stands between two.
#![tactic(auto)]

ghost use Rattle.std.specs.Prelude.{true, false, ◌<◌};
ghost use Rattle.mem_numbers.specs.Numbers.{triples};
ghost use Rattle.work_tables.specs.Tables.{cells_of, pos_of, log_of, Laid, Logged};
ghost use Rattle.answer_stack.specs.Slots.{numbers_of, places_of, begun_of, Answered};
ghost use Rattle.answer_turn.specs.Turning.{Shown, Ready, Turned, CanNumber, Named, AtBound, goes, comes};

use mem_variables::Variable;

// Where a text ends, and how many unknowns were met.
#[derive(Clone, Copy)]
pub struct Wrote {
    pub at: usize,
    pub count: usize,
}

// How the traversal goes on: the variable that is to be written next, if one is, the height of the stack, the unknowns that were met, and
// where the text so far ends.
#[derive(Clone, Copy)]
pub struct Turn {
    pub next: Option<Variable>,
    pub high: usize,
    pub count: usize,
    pub at: usize,
}

// Writes the unbound class `r`.
pub fn unknown(
    w: &mut [u8],
    r: Variable,
    count: usize,
    out: &mut [u8],
    at: usize,
    write: bool,
) -> Wrote
    requires { CanNumber w.old r.0 count }
    ensures { Named w.old r.0 count out.old at write w.new out.new result.count result.at }
{
    let e = answer_stack::number_get(w, r.0);
    let a = answer_emit::byte(out, at, 95, write);
    if e == 0 {
        answer_stack::number_put(w, r.0, count + 1);
        let b = answer_emit::number(out, a, count, write);
        return Wrote {
            at: b,
            count: count + 1,
        };
    }
    let b = answer_emit::number(out, a, e - 1, write);
    Wrote { at: b, count }
}

// Writes the label of the application at `p`, to which `x` is bound; its arguments are next, if it has any.
fn label(
    w: &mut [u8],
    used: usize,
    table: &[u8],
    x: Variable,
    p: usize,
    high: usize,
    count: usize,
    out: &mut [u8],
    at: usize,
    write: bool,
) -> Turn
    requires { Laid w.old × Logged used × Shown (triples table.now) (log_of used w.old) (pos_of w.old) (cells_of w.old) × Ready (triples table.now) (log_of used w.old) (pos_of w.old) (cells_of w.old) (places_of w.old) (begun_of w.old) (numbers_of w.old) true x.0 high count × AtBound (pos_of w.old) (cells_of w.old) x.0 p }
    ensures { Turned (triples table.now) (log_of used w.old) (pos_of w.old) (cells_of w.old) (places_of w.old) (begun_of w.old) (numbers_of w.old) out.old true x.0 high count at write (places_of w.new) (begun_of w.new) (numbers_of w.new) out.new (goes result.next) (comes result.next) result.high result.count result.at × Answered w.old w.new }
{
    let g = solve_fields::num_of(work_tables::peek(w, used, p + 2));
    let a = answer_emit::name(table, g, out, at, write);
    let v = work_tables::peek(w, used, p + 3);
    if !solve_fields::is_var(v) {
        return Turn {
            next: None,
            high,
            count,
            at: a,
        };
    }
    let b = answer_emit::byte(out, a, 40, write);
    answer_stack::push(w, high, p, 1);
    Turn {
        next: Some(Variable(solve_fields::var_of(v))),
        high: high + 1,
        count,
        at: b,
    }
}

// Writes what stands first of `x`: an unbound class, or the label of its application.
pub fn begin(
    w: &mut [u8],
    used: usize,
    table: &[u8],
    x: Variable,
    high: usize,
    count: usize,
    out: &mut [u8],
    at: usize,
    write: bool,
) -> Turn
    requires { Laid w.old × Logged used × Shown (triples table.now) (log_of used w.old) (pos_of w.old) (cells_of w.old) × Ready (triples table.now) (log_of used w.old) (pos_of w.old) (cells_of w.old) (places_of w.old) (begun_of w.old) (numbers_of w.old) true x.0 high count }
    ensures { Turned (triples table.now) (log_of used w.old) (pos_of w.old) (cells_of w.old) (places_of w.old) (begun_of w.old) (numbers_of w.old) out.old true x.0 high count at write (places_of w.new) (begun_of w.new) (numbers_of w.new) out.new (goes result.next) (comes result.next) result.high result.count result.at × Answered w.old w.new }
{
    let r = work_cells::find(w, x);
    let c = work_trail::cell_get(w, r.0);
    if c % 4 != 2 {
        let u = unknown(w, r, count, out, at, write);
        return Turn {
            next: None,
            high,
            count: u.count,
            at: u.at,
        };
    }
    let p = work_tables::pos_get(w, c / 256);
    label(w, used, table, x, p, high, count, out, at, write)
}

// Behind a term: the next argument of the application on top, or its end.
pub fn behind(
    w: &mut [u8],
    used: usize,
    table: &[u8],
    high: usize,
    count: usize,
    out: &mut [u8],
    at: usize,
    write: bool,
) -> Turn
    requires { Laid w.old × Logged used × Shown (triples table.now) (log_of used w.old) (pos_of w.old) (cells_of w.old) × Ready (triples table.now) (log_of used w.old) (pos_of w.old) (cells_of w.old) (places_of w.old) (begun_of w.old) (numbers_of w.old) false 0 high count × (0 < high) }
    ensures { Turned (triples table.now) (log_of used w.old) (pos_of w.old) (cells_of w.old) (places_of w.old) (begun_of w.old) (numbers_of w.old) out.old false 0 high count at write (places_of w.new) (begun_of w.new) (numbers_of w.new) out.new (goes result.next) (comes result.next) result.high result.count result.at × Answered w.old w.new }
{
    let i = high - 1;
    let p = answer_stack::place_get(w, i);
    let k = answer_stack::begun_get(w, i);
    let v = work_tables::peek(w, used, p + 3 + k);
    if !solve_fields::is_var(v) {
        let b = answer_emit::byte(out, at, 41, write);
        return Turn {
            next: None,
            high: i,
            count,
            at: b,
        };
    }
    let b = answer_emit::byte(out, at, 44, write);
    answer_stack::begun_put(w, i, k + 1);
    Turn {
        next: Some(Variable(solve_fields::var_of(v))),
        high,
        count,
        at: b,
    }
}
