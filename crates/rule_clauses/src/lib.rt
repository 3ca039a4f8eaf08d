// Clauses of lent words appended as guarded goals, each with fresh variables.
#![tactic(auto)]

ghost use Rattle.std.specs.Prelude.{◌≡◌, ◌+◌, ◌≤◌, length};
ghost use Rattle.mem_words.specs.Words.{words};
ghost use Rattle.rule_build.specs.Built.{Appended};
ghost use Rattle.rule_effects.specs.Effects.{begins_clause, hides};
ghost use Rattle.rule_clauses.specs.Going.{goal, left, hidden};

use mem_sorts::Sort;
use mem_words::Word;

// Whether a clause begins with a word.
pub fn starts_clause(w: Word) -> bool
    ensures { result ≡ begins_clause w }
{
    matches!(w, Word::Inner(Sort::Clause))
}

// Appends the clause at `j`, which hides `n` variables.
fn append_one(ws: &[u8], j: usize, next: usize, n: usize, out: &mut [u8], at: usize) -> usize
    requires { (j ≤ length (words ws.now)) × (n ≡ hides (words ws.now) j) × (next + n ≤ 65536) }
    ensures { Appended (words out.old) at (goal (words ws.now) j next) result (words out.new) }
{
    let g = rule_close::end_of(ws, j + 2);
    let b = rule_close::end_of(ws, g + 1);
    rule_clause::append_clause(ws, j, g + 1, b + 1, next, n, out, at)
}

// Appends all clauses from `from` on.
pub fn append_clauses(ws: &[u8], from: usize, next: usize, out: &mut [u8], at: usize) -> usize
    requires { next + hidden (words ws.now) from ≤ 65536 }
    ensures { Appended (words out.old) at (left (words ws.now) from next) result (words out.new) }
{
    let c = mem_words::count(ws);
    let mut j = from;
    let mut x = next;
    let mut k = at;
    while j < c {
        let w = rule_read::word_at(ws, j);
        if starts_clause(w) {
            let n = rule_number::number_at(ws, j + 1);
            let e = rule_close::end_of(ws, j);
            k = append_one(ws, j, x, n, out, k);
            x += n;
            j = e + 1;
        } else {
            return k; // no more
        }
    }
    k
}
