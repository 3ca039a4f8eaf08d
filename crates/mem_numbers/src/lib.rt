// Numbers in lent bytes, the low byte first, of `W` bytes each.
#![tactic(auto)]

ghost use Rattle.std.specs.Prelude.{◌<◌, ◌^◌, length};
ghost use Rattle.mem_numbers.specs.Stored.{Stored};
ghost use Rattle.mem_numbers.specs.Numbers.{numbers_of, Got, CanPut, Counted};

// How many numbers `b` holds; bytes left over are no number.
pub fn count<const W: usize>(b: &[u8]) -> usize
    requires { 1 < W }
    ensures { Counted (numbers_of W b.now) result }
{
    b.len() / W
}

// The number at `i`.
#[tactic(auto, using(crate::specs::Numbers::room_of))]
pub fn get<const W: usize>(b: &[u8], i: usize) -> usize
    requires few { W < 8 }
    requires some { 0 < W }
    requires inside { i < length (numbers_of W b.now) }
    ensures { Got (numbers_of W b.now) i (256 ^ W) result }
{
    let mut v = 0;
    for k in (0..W).rev() {
        v = v * 256 + usize::from(b[W * i + k]);
    }
    v
}

// Writes `v` as the number at `i`.
#[tactic(auto, using(crate::specs::Numbers::room_of))]
pub fn put<const W: usize>(b: &mut [u8], i: usize, v: usize)
    requires some { 0 < W }
    requires can { CanPut (numbers_of W b.old) i (256 ^ W) v }
    ensures { Stored (numbers_of W b.old) i v (numbers_of W b.new) }
{
    let mut rest = v;
    for k in 0..W {
        b[W * i + k] = (rest % 256) as u8;
        rest /= 256;
    }
}
