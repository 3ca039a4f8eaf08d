// Runs of bytes and of words copied; a word opened.
#![tactic(auto)]

ghost use Rattle.std.specs.Prelude.{drop};
ghost use Rattle.mem_words.specs.Words.{words};
ghost use Rattle.mem_copies.specs.Runs.{run, CanCopy, Copied};
ghost use Rattle.mem_copies.specs.Open.{Opened, CanOpen};

use mem_words::Word;

// Copies the `n` bytes of `src` from `from` on to `dst` from `at` on.
pub fn copy_bytes(src: &[u8], from: usize, n: usize, dst: &mut [u8], at: usize)
    requires { CanCopy src.now from n dst.old at }
    ensures { Copied dst.old at (drop from src.now) n dst.new }
{
    // A loop: std's copy_from_slice calls memmove, and the library for hosts needs memcpy and memset alone (host/akl.h).
    for i in 0..n {
        dst[at + i] = src[from + i];
    }
}

// Copies the `n` words of `src` from `from` on to `dst` from `at` on.
pub fn copy(src: &[u8], from: usize, n: usize, dst: &mut [u8], at: usize)
    requires { CanCopy (words src.now) from n (words dst.old) at }
    ensures { Copied (words dst.old) at (drop from (words src.now)) n (words dst.new) }
{
    copy_bytes(src, 3 * from, 3 * n, dst, 3 * at)
}

// The word `w` with the `n` words of `vs` from `v` on for its level.
pub fn opened(w: Word, vs: &[u8], v: usize, n: usize) -> Word
    requires { CanOpen (words vs.now) v n w }
    ensures { Opened (run v n (words vs.now)) w result }
{
    match w {
        Word::End => Word::End,
        Word::Free(x) => Word::Free(x),
        Word::Level(l) => {
            if l < n {
                mem_get::get(vs, v + l)
            } else {
                Word::Level(l - n)
            }
        }
        Word::Num(x) => Word::Num(x),
        Word::Place(x) => Word::Place(x),
        Word::Inner(x) => Word::Inner(x),
        Word::Bad => Word::Bad,
    }
}
