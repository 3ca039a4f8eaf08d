// Runs of words compared.
#![tactic(auto)]

ghost use Rattle.std.specs.Prelude.{◌≡◌};
ghost use Rattle.mem_numbers.specs.Decides.{Decides};
ghost use Rattle.mem_words.specs.Words.{words};
ghost use Rattle.mem_copies.specs.Runs.{run, CanCompare};
ghost use Rattle.mem_copies.specs.Alike.{Alike};

// How many of the `n` bytes of `a` from `i` on are surely those of `b` from `j` on: whole pieces of 32.
fn front(a: &[u8], i: usize, b: &[u8], j: usize, n: usize) -> usize
    requires { CanCompare a.now i b.now j n }
    ensures { Alike a.now i b.now j n result }
{
    for p in 0..n / 32 {
        let k = 32 * p;
        if a[i + k..i + k + 32] != b[j + k..j + k + 32] {
            return k;
        }
    }
    n / 32 * 32
}

// Whether the `n` words of `a` from `i` on are those of `b` from `j` on. Where bytes differ, words may be the same: `Bad` has many forms.
pub fn same(a: &[u8], i: usize, b: &[u8], j: usize, n: usize) -> bool
    requires { CanCompare (words a.now) i (words b.now) j n }
    ensures { Decides (run i n (words a.now) ≡ run j n (words b.now)) result }
{
    for k in front(a, 3 * i, b, 3 * j, 3 * n) / 3..n {
        let x = mem_get::get(a, i + k);
        let y = mem_get::get(b, j + k);
        if x != y {
            return false;
        }
    }
    true
}
