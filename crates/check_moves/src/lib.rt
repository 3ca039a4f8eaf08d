// What a word does to the rest of a bracket, by the tables of the working slice.
#![tactic(auto)]

ghost use Rattle.std.specs.Prelude.{◌≡◌, ◌&&◌, ◌+◌, ◌<◌, leb, ltb};
ghost use Rattle.akl.specs.Base.{if};
ghost use Rattle.mem_words.specs.declared.Word.TheVariants.{End, Num};
ghost use Rattle.mem_words.specs.Words.{Small};
ghost use Rattle.check_shapes.specs.Bounds.{Bounded};
ghost use Rattle.check_tables.specs.Tables.{Tabled};
ghost use Rattle.check_moves.specs.Stepping.{Steps, Fixed, CanStep};

use check_shapes::{Frame, Move, when};
use mem_words::Word;

// A hiding of `v` variables.
fn hidden(n: usize, d: usize, v: usize) -> Move
    requires { (n < 4194304) × (v < 65536) }
    ensures { result ≡ if (leb 1 v && ltb (n + v) 4194304) (Move.Stay (Frame.One (n + v) d)) Move.Stop }
{
    let l = n + v;
    if l < 4194304 {
        return when(1 <= v, Move::Stay(Frame::One(l, d)));
    }
    Move::Stop
}

// A clause with `v` hidden variables.
fn claused(n: usize, d: usize, v: usize) -> Move
    requires { (n < 4194304) × (v < 65536) }
    ensures { result ≡ if (ltb (n + v) 4194304) (Move.Stay (Frame.Clause2 (n + v) d)) Move.Stop }
{
    let l = n + v;
    when(l < 4194304, Move::Stay(Frame::Clause2(l, d)))
}

// What the number `v` does in the frame `x`.
fn on_num(w: &[u8], m: usize, x: Frame, v: usize) -> Move
    requires { CanStep w.now m x v }
    ensures { Fixed w.now m x (Num v) result }
{
    match x {
        Frame::AppNum(n) => when(check_tables::is_con(w, m, v), Move::Stay(Frame::Args(n, 8))),
        Frame::CallNum(n) => Move::Stay(Frame::CallArgs(n, v, 0)),
        Frame::HideNum(n, d) => hidden(n, d, v),
        Frame::ClauseNum(n, d) => claused(n, d, v),
        Frame::Head => when(check_tables::is_pred(w, m, v), Move::Stay(Frame::Arity)),
        Frame::Arity => when(v <= 8, Move::Stay(Frame::Body(v))),
        _ => Move::Stop,
    }
}

// What an End does in the frame `x`.
fn on_end(w: &[u8], m: usize, x: Frame) -> Move
    requires { Tabled w.now m }
    ensures { Fixed w.now m x End result }
{
    match x {
        Frame::CallArgs(_, p, k) => when(check_tables::is_def(w, m, p, k), Move::Pop),
        Frame::Close | Frame::Args(_, _) | Frame::Clauses(_, _) => Move::Pop,
        Frame::Goals | Frame::Members | Frame::Locals | Frame::Constraints | Frame::Guards =>
            Move::Pop,
        _ => Move::Stop,
    }
}

// What the word `t` does in the frame `x`, where variables' numbers may stand in statements if `free` is true.
pub fn step(w: &[u8], m: usize, free: bool, x: Frame, t: Word) -> Move
    requires { Tabled w.now m × Bounded x × Small t }
    ensures { Steps w.now m free x t result }
{
    match t {
        Word::End => on_end(w, m, x),
        Word::Free(_) => check_vars::on_free(x, free),
        Word::Level(l) => check_vars::on_level(x, l),
        Word::Num(v) => on_num(w, m, x, v),
        Word::Place(k) => check_places::places(x, k),
        Word::Inner(s) => check_opens::opens(x, s),
        Word::Bad => Move::Stop,
    }
}
