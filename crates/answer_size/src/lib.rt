// The length of a term's text, counted no further than a bound, by what is known of its arguments.
#![tactic(auto)]

ghost use Rattle.std.specs.Prelude.{◌≡◌, ◌+◌, ◌<◌, drop};
ghost use Rattle.mem_numbers.specs.Numbers.{triples};
ghost use Rattle.solve_fields.specs.Read.{args_of, args_at};
ghost use Rattle.work_tables.specs.Tables.{cells_of, pos_of, log_of, Laid, Logged};
ghost use Rattle.answer_text.specs.Lengths.{cap};
ghost use Rattle.answer_turn.specs.Turning.{Shown};
ghost use Rattle.answer_stack.specs.Slots.{numbers_of};
ghost use Rattle.answer_known.specs.Known.{known_of};
ghost use Rattle.answer_size.specs.Sizes.{CanMeasure, Sized, CanAdd, Added, AddedAll};

use mem_variables::Variable;

// `a` and `n` more; `m` + 1 for any sum that is more than `m`.
pub fn plus(m: usize, a: usize, n: usize) -> usize
    requires { m < 4294967294 }
    ensures { result ≡ cap m (a + n) }
{
    if m < a {
        return m + 1;
    }
    if m - a < n {
        return m + 1; // the sum itself may not fit a `usize`
    }
    a + n
}

// The length of the text of `x`, which is done.
pub fn measure(w: &[u8], x: Variable, m: usize) -> usize
    requires { Laid w.now × (m < 4294967294) × CanMeasure (pos_of w.now) (cells_of w.now) (numbers_of w.now) (known_of w.now) x.0 m }
    ensures { Sized (pos_of w.now) (cells_of w.now) (numbers_of w.now) (known_of w.now) x.0 m result }
{
    let r = work_cells::find(w, x);
    let c = work_trail::cell_get(w, r.0);
    if c % 4 != 2 {
        let e = answer_stack::number_get(w, r.0);
        let d = answer_emit::width(e - 1);
        return plus(m, 1, d);
    }
    let e = answer_known::known_get(w, c / 256);
    e - 1
}

// `a` and the arguments from the word `from` on, each with the byte before it, and the bracket behind them.
fn arguments(w: &[u8], used: usize, from: usize, m: usize, a: usize) -> usize
    requires { Laid w.now × Logged used × (m < 4294967294) × (from < 4294967300) × CanAdd (log_of used w.now) (pos_of w.now) (cells_of w.now) (numbers_of w.now) (known_of w.now) (args_of (drop from (log_of used w.now))) m }
    ensures { Added (log_of used w.now) (pos_of w.now) (cells_of w.now) (numbers_of w.now) (known_of w.now) (args_of (drop from (log_of used w.now))) m a result }
{
    let mut i = from;
    let mut acc = a;
    loop {
        let v = work_tables::peek(w, used, i);
        if !solve_fields::is_var(v) {
            return plus(m, acc, 1);
        }
        let l = measure(w, Variable(solve_fields::var_of(v)), m);
        let b = plus(m, acc, 1);
        acc = plus(m, b, l);
        i += 1;
    }
}

// The length of the application at `p`, whose arguments are done.
pub fn application(w: &[u8], used: usize, table: &[u8], p: usize, m: usize) -> usize
    requires { Laid w.now × Logged used × (m < 4294967294) × (p < 4294967296) × Shown (triples table.now) (log_of used w.now) (pos_of w.now) (cells_of w.now) × CanAdd (log_of used w.now) (pos_of w.now) (cells_of w.now) (numbers_of w.now) (known_of w.now) (args_at (log_of used w.now) p) m }
    ensures { AddedAll (triples table.now) (log_of used w.now) (pos_of w.now) (cells_of w.now) (numbers_of w.now) (known_of w.now) p m result }
{
    let g = solve_fields::num_of(work_tables::peek(w, used, p + 2));
    let n = answer_emit::name_length(table, g);
    let a = plus(m, 0, n);
    let v = work_tables::peek(w, used, p + 3);
    if !solve_fields::is_var(v) {
        return a;
    }
    arguments(w, used, p + 3, m, a)
}
