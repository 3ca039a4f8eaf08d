// The machine over the words of lent bytes, its stack in the working slice.
#![tactic(auto)]

ghost use Rattle.std.specs.Prelude.{◌≡◌};
ghost use Rattle.mem_words.specs.Words.{words};
ghost use Rattle.check_shapes.specs.Machine.{is_last};
ghost use Rattle.check_run.specs.Running.{CanRun, Ran};

use check_shapes::{Frame, Move};

// Whether words may end in the frame `x`.
fn last(x: Frame) -> bool
    ensures { result ≡ is_last x }
{
    matches!(x, Frame::Head | Frame::Done)
}

// Whether the words `b` are taken from the frame `start` on.
pub fn run(w: &mut [u8], b: &[u8], m: usize, free: bool, start: Frame) -> bool
    requires { CanRun w.old m (words b.now) start }
    ensures { Ran w.old m free (words b.now) start w.new result }
{
    let n = mem_words::count(b);
    let mut h = 0;
    let mut x = start;
    for i in 0..n {
        let t = mem_get::get(b, i);
        let r = check_moves::step(w, m, free, x, t);
        match r {
            Move::Stop => {
                return false;
            }
            Move::Stay(y) => {
                x = y;
            }
            Move::Push(y, z) => {
                check_frames::push(w, h, z);
                h += 1;
                x = y;
            }
            Move::Pop => {
                if h == 0 {
                    return false;
                }
                h -= 1;
                x = check_frames::top(w, h);
            }
        }
    }
    if h == 0 {
        return last(x);
    }
    false
}
