// What a word that opens a locals list, a store, a constraint or a statement does to the rest of a bracket.
#![tactic(auto)]

ghost use Rattle.std.specs.Prelude.{◌≡◌, ◌-◌};
ghost use Rattle.mem_words.specs.declared.Word.TheVariants.{Inner};
ghost use Rattle.check_shapes.specs.Machine.{deeper, begun, begun_left, begun_stored, begun_clause, begun_locals, begun_store};
ghost use Rattle.check_shapes.specs.Moving.{Moves};

use check_shapes::{Frame, Move, when};
use mem_sorts::Sort;

// One hiding or choice deeper, `x` being left behind.
fn deeper(d: usize, y: Frame, x: Frame) -> Move
    ensures { result ≡ deeper d y x }
{
    when(1 <= d, Move::Push(y, x))
}

// One less, where there is one.
fn less(d: usize) -> usize
    ensures { result ≡ d - 1 }
{
    d.saturating_sub(1)
}

// A statement begins.
fn begun(s: Sort, n: usize, d: usize, x: Frame) -> Move
    ensures { result ≡ begun s n d x }
{
    match s {
        Sort::True | Sort::Fail => Move::Push(Frame::Close, x),
        Sort::Eq => Move::Push(Frame::Var2(n), x),
        Sort::App => Move::Push(Frame::AppVar(n), x),
        Sort::Call => Move::Push(Frame::CallNum(n), x),
        Sort::Comp => Move::Push(Frame::Comp2(n, d), x),
        Sort::Hide => deeper(d, Frame::HideNum(n, less(d)), x),
        Sort::AskWait | Sort::AskCond | Sort::AskCommit => deeper(
            d,
            Frame::Clauses1(n, less(d)),
            x,
        ),
        _ => Move::Stop,
    }
}

// The left part of a composition begins: a composition is one deeper there.
fn begun_left(s: Sort, n: usize, d: usize, x: Frame) -> Move
    ensures { result ≡ begun_left s n d x }
{
    match s {
        Sort::Comp => deeper(d, Frame::Comp2(n, less(d)), x),
        _ => begun(s, n, d, x),
    }
}

// A stored constraint begins.
fn begun_stored(s: Sort, x: Frame) -> Move
    ensures { result ≡ begun_stored s x }
{
    match s {
        Sort::Fail => Move::Push(Frame::Close, x),
        Sort::Eq => Move::Push(Frame::Var2(0), x),
        Sort::App => Move::Push(Frame::AppVar(0), x),
        _ => Move::Stop,
    }
}

// A clause begins.
fn begun_clause(s: Sort, n: usize, d: usize) -> Move
    ensures { result ≡ begun_clause s n d }
{
    match s {
        Sort::Clause => Move::Push(Frame::ClauseNum(n, d), Frame::Clauses(n, d)),
        _ => Move::Stop,
    }
}

// The locals of an and-box begin.
fn begun_locals(s: Sort) -> Move
    ensures { result ≡ begun_locals s }
{
    match s {
        Sort::Locals => Move::Push(Frame::Locals, Frame::AndStore),
        _ => Move::Stop,
    }
}

// The store of an and-box begins.
fn begun_store(s: Sort) -> Move
    ensures { result ≡ begun_store s }
{
    match s {
        Sort::Store => Move::Push(Frame::Constraints, Frame::Members),
        _ => Move::Stop,
    }
}

// What a word that opens the sort `s` does in the frame `x`.
pub fn opens(x: Frame, s: Sort) -> Move
    ensures { Moves x (Inner s) result }
{
    match x {
        Frame::One(n, d) => begun(s, n, d, Frame::Close),
        Frame::Comp2(n, d) => begun_left(s, n, d, Frame::One(n, d)),
        Frame::Clause2(n, d) => begun(s, n, d, Frame::One(n, d)),
        Frame::Clauses1(n, d) | Frame::Clauses(n, d) => begun_clause(s, n, d),
        Frame::Body(n) => begun(s, n, 32, Frame::Head),
        Frame::AndLocals => begun_locals(s),
        Frame::AndStore => begun_store(s),
        Frame::Constraints => begun_stored(s, Frame::Constraints),
        _ => Move::Stop,
    }
}
