// How many variables the clauses of lent words hide.
#![tactic(auto)]

ghost use Rattle.mem_words.specs.Words.{words};
ghost use Rattle.rule_clauses.specs.Going.{hidden};
ghost use Rattle.rule_hidden.specs.Counting.{Capped};

// How many variables the clauses from `from` on hide, or more than 65,536.
pub fn hidden_in(ws: &[u8], from: usize) -> usize
    ensures { Capped (hidden (words ws.now) from) result }
{
    let c = mem_words::count(ws);
    let mut j = from;
    let mut t: usize = 0;
    while j < c {
        if 65536 < t {
            return t; // too many
        }
        let w = rule_read::word_at(ws, j);
        if rule_clauses::starts_clause(w) {
            let n = rule_number::number_at(ws, j + 1);
            let e = rule_close::end_of(ws, j);
            t += n;
            j = e + 1;
        } else {
            return t; // no more
        }
    }
    t
}
