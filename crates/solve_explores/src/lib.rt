// What the search for a cycle of bindings meets: the class of an application's argument.
#![tactic(auto)]

ghost use Rattle.mem_numbers.specs.Numbers.{triples};
ghost use Rattle.mem_words.specs.Words.{words};
ghost use Rattle.solve_explores.specs.Search.{ChildAt, CanLook};

// What an application's argument leads to: there is none, or an unbound class, or the application of a bound one. Not an Option, which
// would hold another.
#[derive(Clone, Copy)]
pub enum Child {
    Last,
    Open,
    Bound(usize),
}

// What the argument at `c` leads to.
pub fn look(t: &[u8], cells: &[u8], c: usize) -> Child
    requires { CanLook (words t.now) (triples cells.now) }
    ensures { ChildAt (words t.now) (triples cells.now) c result }
{
    let w = solve_fields::peek(t, c);
    if !solve_fields::is_var(w) {
        return Child::Last;
    }
    let r = solve_cells::find(cells, solve_fields::var_of(w));
    let d = mem_numbers::get::<3>(cells, r);
    if d % 4 != 2 {
        return Child::Open;
    }
    Child::Bound(d / 256)
}
