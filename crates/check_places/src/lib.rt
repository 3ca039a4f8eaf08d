// What a word that opens a place of a configuration does to the rest of a bracket.
#![tactic(auto)]

ghost use Rattle.std.specs.Prelude.{◌≡◌};
ghost use Rattle.mem_words.specs.declared.Word.TheVariants.{Place};
ghost use Rattle.check_shapes.specs.Machine.{begun_root, begun_goal, begun_member, begun_guarded};
ghost use Rattle.check_shapes.specs.Moving.{Moves};

use check_shapes::{Frame, Move};
use mem_sorts::Kind;

// The top or-box begins.
fn begun_root(k: Kind) -> Move
    ensures { result ≡ begun_root k }
{
    match k {
        Kind::Or => Move::Push(Frame::Goals, Frame::Done),
        _ => Move::Stop,
    }
}

// A goal begins, `x` being left behind it.
fn begun_goal(k: Kind, x: Frame) -> Move
    ensures { result ≡ begun_goal k x }
{
    match k {
        Kind::Or => Move::Push(Frame::Goals, x),
        Kind::And => Move::Push(Frame::AndLocals, x),
        _ => Move::Stop,
    }
}

// A member of an and-box begins.
fn begun_member(k: Kind) -> Move
    ensures { result ≡ begun_member k }
{
    match k {
        Kind::Member => Move::Push(Frame::One(0, 32), Frame::Members),
        Kind::Wait | Kind::Cond | Kind::Commit => Move::Push(Frame::Guards, Frame::Members),
        _ => Move::Stop,
    }
}

// A guarded goal begins.
fn begun_guarded(k: Kind) -> Move
    ensures { result ≡ begun_guarded k }
{
    match k {
        Kind::Guarded => Move::Push(Frame::Guard, Frame::Guards),
        _ => Move::Stop,
    }
}

// What a word that opens the kind `k` does in the frame `x`.
pub fn places(x: Frame, k: Kind) -> Move
    ensures { Moves x (Place k) result }
{
    match x {
        Frame::Root => begun_root(k),
        Frame::Goals => begun_goal(k, Frame::Goals),
        Frame::Members => begun_member(k),
        Frame::Guards => begun_guarded(k),
        Frame::Guard => begun_goal(k, Frame::One(0, 32)),
        _ => Move::Stop,
    }
}
