// All locals inside a goal of a configuration, marked in the working slice or unmarked.
#![tactic(auto)]

ghost use Rattle.std.specs.Prelude.{◌≡◌, ◌<◌};
ghost use Rattle.mem_words.specs.Words.{words};
ghost use Rattle.solve_fields.specs.Read.{Vars, var_of};
ghost use Rattle.work_tables.specs.Tables.{Laid};
ghost use Rattle.rule_ranges.specs.Ranges.{opens_locals, locals_at};
ghost use Rattle.rule_locals.specs.Inside.{inside, Given, Adds, EndsAt};

use mem_sorts::Sort;
use mem_words::Word;

// Whether the variables behind a bracket of the sort are locals.
fn opens_locals(s: Sort) -> bool
    ensures { result ≡ opens_locals s }
{
    match s {
        Sort::Locals => true,
        Sort::Store => false,
        Sort::True => false,
        Sort::Fail => false,
        Sort::Eq => false,
        Sort::App => false,
        Sort::Call => false,
        Sort::Comp => false,
        Sort::Hide => false,
        Sort::Clause => false,
        Sort::AskWait => false,
        Sort::AskCond => false,
        Sort::AskCommit => false,
    }
}

// Whether a variable behind the word is a local; `b` says it of the word itself.
fn behind_word(b: bool, x: Word) -> bool
    ensures { result ≡ inside b x }
{
    match x {
        Word::End => false,
        Word::Free(_) => b,
        Word::Level(_) => false,
        Word::Num(_) => false,
        Word::Place(_) => false,
        Word::Inner(s) => opens_locals(s),
        Word::Bad => false,
    }
}

// Gives the word's variable the mark `v` if it is a local.
fn mark_word(w: &mut [u8], b: bool, x: Word, v: usize)
    requires { Laid w.old × (var_of x < 65536) × (v < 256) }
    ensures { Adds w.old b x v w.new }
{
    if !b {
        return;
    }
    if !solve_fields::is_var(x) {
        return;
    }
    let i = solve_fields::var_of(x);
    work_tables::local_put(w, i, v);
}

// Where the words of the goal at `g` end.
fn end_at(t: &[u8], g: usize) -> usize
    ensures { EndsAt (words t.now) g result }
{
    let n = mem_words::count(t);
    let e = rule_close::end_of(t, g);
    if e < n {
        return e + 1;
    }
    n
}

// Gives all locals inside the goal at `g` the mark `v`, 1 or 0 for none; the other variables keep theirs.
pub fn give_inside(t: &[u8], w: &mut [u8], g: usize, v: usize)
    requires { Laid w.old × Vars (words t.now) 65536 × (v < 256) }
    ensures { Given w.old (locals_at (words t.now) g) v w.new }
{
    let e = end_at(t, g);
    let mut j = g;
    let mut b = false;
    while j < e {
        let x = mem_get::get(t, j);
        mark_word(w, b, x, v);
        b = behind_word(b, x);
        j += 1;
    }
}
