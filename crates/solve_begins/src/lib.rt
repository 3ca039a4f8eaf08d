// Which constraint a word begins.
#![tactic(auto)]

ghost use Rattle.std.specs.Prelude.{◌≡◌};
ghost use Rattle.solve_begins.specs.Begins.{begins_of, begins_sort};
ghost use Rattle.solve_begins.specs.Number.{number};

use mem_sorts::Sort;
use mem_words::Word;

// What a word begins: nothing (or true, which is nothing to tell), fail, an equation, an application.
#[derive(Clone, Copy)]
pub enum Begun {
    Nothing,
    Fail,
    Equation,
    Application,
}

fn begins_sort(s: Sort) -> Begun
    ensures { number result ≡ begins_sort s }
{
    match s {
        Sort::Fail => Begun::Fail,
        Sort::Eq => Begun::Equation,
        Sort::App => Begun::Application,
        _ => Begun::Nothing,
    }
}

// What a word begins.
pub fn begins(w: Word) -> Begun
    ensures { number result ≡ begins_of w }
{
    match w {
        Word::Inner(s) => begins_sort(s),
        _ => Begun::Nothing,
    }
}
