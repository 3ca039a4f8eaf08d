// The frames that are left behind open brackets, in the working slice, four bytes each.
#![tactic(auto)]

ghost use Rattle.std.specs.Prelude.{◌≡◌, ◌+◌, ◌*◌, ◌<◌};
ghost use Rattle.check_shapes.specs.Bounds.{Low, Left, frame_number, frame_of, number_frame};
ghost use Rattle.check_frames.specs.Stack.{Pushed, CanPush, Topped, CanTop};

use check_shapes::Frame;

// The number of a frame of the kind `b`.
fn numbered(b: usize, n: usize, d: usize) -> usize
    requires { (b < 16) × Low n d }
    ensures { result ≡ b + 16 * d + 1024 * n }
{
    b + 16 * d + 1024 * n
}

// The number of a frame that may be left behind: the stack lies in the working slice, which holds numbers alone.
#[tactic(auto, unfolding(check_shapes::specs::Bounds::frame_number))]
fn pack(x: Frame) -> usize
    requires { Left x }
    ensures { result ≡ frame_number x }
{
    match x {
        Frame::One(n, d) => numbered(1, n, d),
        Frame::Clauses(n, d) => numbered(2, n, d),
        Frame::Head => 3,
        Frame::Done => 4,
        Frame::Goals => 5,
        Frame::AndStore => 6,
        Frame::Members => 7,
        Frame::Constraints => 8,
        Frame::Guards => 9,
        _ => 0,
    }
}

// The frame of a kind, with `n` variables bound and depth `d` left.
#[tactic(auto, unfolding(check_shapes::specs::Bounds::frame_of), using(crate::specs::Stack::frame_rest))]
fn of_kind(k: usize, d: usize, n: usize) -> Frame
    ensures { result ≡ frame_of k d n }
{
    match k {
        0 => Frame::Close,
        1 => Frame::One(n, d),
        2 => Frame::Clauses(n, d),
        3 => Frame::Head,
        4 => Frame::Done,
        5 => Frame::Goals,
        6 => Frame::AndStore,
        7 => Frame::Members,
        8 => Frame::Constraints,
        _ => Frame::Guards,
    }
}

// The frame of a number.
fn unpack(v: usize) -> Frame
    ensures { result ≡ number_frame v }
{
    of_kind(v % 16, v / 16 % 64, v / 1024)
}

// Leaves the frame `x` behind, above `h` others.
pub fn push(w: &mut [u8], h: usize, x: Frame)
    requires { CanPush w.old h x }
    ensures { Pushed w.old h x w.new }
{
    let v = pack(x);
    mem_parts::put::<4>(w, 65536, 262144, h, v);
}

// The frame above `h` others.
pub fn top(w: &[u8], h: usize) -> Frame
    requires { CanTop w.now h }
    ensures { Topped w.now h result }
{
    let v = mem_parts::get::<4>(w, 65536, 262144, h);
    unpack(v)
}
