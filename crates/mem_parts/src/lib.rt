// Numbers of `W` bytes in a part of one lent slice, from `a` on up to `e`. The bounds are parameters and no constants: the proof is made
// once, and no large numeral stands under `take` or `drop`.
#![tactic(auto)]

ghost use Rattle.std.specs.Prelude.{◌<◌, ◌^◌, length};
ghost use Rattle.mem_numbers.specs.Numbers.{numbers_of, Got, CanPut};
ghost use Rattle.mem_numbers.specs.Stored.{Stored};
ghost use Rattle.mem_parts.specs.Parts.{cut, CanGet, CanSet, Set1, Set, CanZero, Zeroed};

// The byte at `i`, as a number. A byte is its own value: what is read of one-byte numbers is said of the bytes themselves, without a law.
fn byte_get(b: &[u8], i: usize) -> usize
    requires { i < length b.now }
    ensures { Got b.now i 256 result }
{
    usize::from(b[i])
}

// Makes `v` the byte at `i`.
fn byte_put(b: &mut [u8], i: usize, v: usize)
    requires { CanPut b.old i 256 v }
    ensures { Stored b.old i v b.new }
{
    b[i] = (v % 256) as u8;
}

// The byte at `i` of the part, as a number.
pub fn get1(w: &[u8], a: usize, e: usize, i: usize) -> usize
    requires { CanGet a e w.now (cut a e w.now) i }
    ensures { Got (cut a e w.now) i 256 result }
{
    byte_get(&w[a..e], i)
}

// Makes `v` the byte at `i` of the part.
pub fn put1(w: &mut [u8], a: usize, e: usize, i: usize, v: usize)
    requires { CanSet a e w.old (cut a e w.old) i 256 v }
    ensures { Set1 a e w.old i v w.new }
{
    byte_put(&mut w[a..e], i, v);
}

// The number at `i` of the part.
pub fn get<const W: usize>(w: &[u8], a: usize, e: usize, i: usize) -> usize
    requires few { W < 8 }
    requires some { 0 < W }
    requires can { CanGet a e w.now (numbers_of W (cut a e w.now)) i }
    ensures { Got (numbers_of W (cut a e w.now)) i (256 ^ W) result }
{
    mem_numbers::get::<W>(&w[a..e], i)
}

// Writes `v` as the number at `i` of the part.
pub fn put<const W: usize>(w: &mut [u8], a: usize, e: usize, i: usize, v: usize)
    requires some { 0 < W }
    requires can { CanSet a e w.old (numbers_of W (cut a e w.old)) i (256 ^ W) v }
    ensures { Set W a e w.old i v w.new }
{
    mem_numbers::put::<W>(&mut w[a..e], i, v);
}

// Makes every byte of the part zero.
pub fn zero(w: &mut [u8], a: usize, e: usize)
    requires { CanZero a e w.old }
    ensures { Zeroed a e w.old w.new }
{
    w[a..e].fill(0);
}
