// The stack of a walk over the and-boxes of a goal, in the working slice: for each that is open what was before it.
#![tactic(auto)]

ghost use Rattle.mem_numbers.specs.Numbers.{Got};
ghost use Rattle.work_tables.specs.Tables.{CanRead, CanWrite};
ghost use Rattle.step_frames.specs.Frames.{frames_of, PutSlot, CanPush, Pushed};

// The number at `i`; four make an entry.
pub fn get(w: &[u8], i: usize) -> usize
    requires { CanRead w.now 32768 i }
    ensures { Got (frames_of w.now) i 65536 result }
{
    mem_parts::get::<2>(w, 401408, 466944, i)
}

// Makes it `v`.
fn put(w: &mut [u8], i: usize, v: usize)
    requires { CanWrite w.old 32768 i 65536 v }
    ensures { PutSlot w.old i v w.new }
{
    mem_parts::put::<2>(w, 401408, 466944, i, v);
}

// Puts an entry at `k`: how many brackets are open inside the and-box around, and the mark before the one that is entered.
pub fn push(w: &mut [u8], k: usize, d: usize, used: usize, n: usize, a: usize)
    requires { CanPush w.old k d used n a }
    ensures { Pushed w.old k d used n a w.new }
{
    let i = 4 * k;
    let x = i + 1;
    let y = i + 2;
    let z = i + 3;
    put(w, i, d);
    put(w, x, used);
    put(w, y, n);
    put(w, z, a);
}
