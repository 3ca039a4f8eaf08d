// Whether the variables of words have cells.
#![tactic(auto)]

ghost use Rattle.mem_words.specs.Words.{words};
ghost use Rattle.solve_fits.specs.Fits.{Bounded};

// Whether every variable of the words is below `limit`.
pub fn vars_below(t: &[u8], limit: usize) -> bool
    ensures { Bounded (words t.now) limit result }
{
    if limit == 0 {
        return false;
    }
    let n = mem_words::count(t);
    for i in 0..n {
        let v = solve_fields::var_of(mem_get::get(t, i));
        if limit <= v {
            return false;
        }
    }
    true
}
