// What a variable does to the rest of a bracket.
#![tactic(auto)]

ghost use Rattle.std.specs.Prelude.{◌≡◌, ◌&&◌, ◌+◌, ◌-◌, leb, ltb};
ghost use Rattle.akl.specs.Base.{if};
ghost use Rattle.mem_words.specs.declared.Word.TheVariants.{Level};
ghost use Rattle.check_shapes.specs.Moving.{Moves, Frees};

use check_shapes::{Frame, Move, when};

// An argument of an application, `k` being left.
fn one_less(b: bool, n: usize, k: usize) -> Move
    ensures { result ≡ if (b && leb 1 k) (Move.Stay (Frame.Args n (k - 1))) Move.Stop }
{
    if 1 <= k {
        return when(b, Move::Stay(Frame::Args(n, k - 1)));
    }
    Move::Stop
}

// An argument of a call, behind `k` others.
fn one_more(b: bool, n: usize, p: usize, k: usize) -> Move
    ensures { result ≡ if (b && ltb k 8) (Move.Stay (Frame.CallArgs n p (k + 1))) Move.Stop }
{
    if k < 8 {
        return when(b, Move::Stay(Frame::CallArgs(n, p, k + 1)));
    }
    Move::Stop
}

// What a bound variable of level `l` does in the frame `x`.
pub fn on_level(x: Frame, l: usize) -> Move
    ensures { Moves x (Level l) result }
{
    match x {
        Frame::Var2(n) => when(l < n, Move::Stay(Frame::Var1(n))),
        Frame::Var1(n) => when(l < n, Move::Stay(Frame::Close)),
        Frame::AppVar(n) => when(l < n, Move::Stay(Frame::AppNum(n))),
        Frame::Args(n, k) => one_less(l < n, n, k),
        Frame::CallArgs(n, p, k) => one_more(l < n, n, p, k),
        _ => Move::Stop,
    }
}

// What a variable's number does in the frame `x`, where such may stand in statements if `free` is true.
pub fn on_free(x: Frame, free: bool) -> Move
    ensures { Frees x free result }
{
    match x {
        Frame::Var2(n) => when(free, Move::Stay(Frame::Var1(n))),
        Frame::Var1(_) => when(free, Move::Stay(Frame::Close)),
        Frame::AppVar(n) => when(free, Move::Stay(Frame::AppNum(n))),
        Frame::Args(n, k) => one_less(free, n, k),
        Frame::CallArgs(n, p, k) => one_more(free, n, p, k),
        Frame::Locals => Move::Stay(Frame::Locals),
        _ => Move::Stop,
    }
}
