// Runs of words copied with their levels opened.
#![tactic(auto)]

ghost use Rattle.std.specs.Prelude.{map, drop, ◌≡◌, get_or};
ghost use Rattle.mem_words.specs.Words.{words};
ghost use Rattle.mem_copies.specs.Runs.{run, CanCopyOpened, Copied};
ghost use Rattle.mem_numbers.specs.Stored.{Stored};
ghost use Rattle.mem_words.specs.declared.Word.TheVariants.{Bad};
ghost use Rattle.mem_copies.specs.Open.{open_word, CanPutOpened, is_level};

use mem_words::Word;

// Whether a word is a level. Read from lent bytes, this looks at the class alone.
fn is_level(w: Word) -> bool
    ensures { result ≡ is_level w }
{
    matches!(w, Word::Level(_))
}

// Writes the word of `src` at `k`, opened with the `m` words of `vs` from `v` on, as the word of `dst` at `j`. A word that is
// no level is copied with no look at what it is.
fn put_opened(src: &[u8], k: usize, vs: &[u8], v: usize, m: usize, dst: &mut [u8], j: usize)
    requires { CanPutOpened (words src.now) k (words vs.now) v m (words dst.old) j }
    ensures { Stored (words dst.old) j (open_word (run v m (words vs.now)) (get_or (words src.now) k Bad)) (words dst.new) }
{
    let w = mem_get::get(src, k);
    if is_level(w) {
        let o = mem_copies::opened(w, vs, v, m);
        mem_put::put(dst, j, o);
        return;
    }
    mem_copies::copy(src, k, 1, dst, j)
}

// Copies as `copy` does, each word opened with the `m` words of `vs` from `v` on.
pub fn copy_opened(
    src: &[u8],
    from: usize,
    n: usize,
    vs: &[u8],
    v: usize,
    m: usize,
    dst: &mut [u8],
    at: usize,
)
    requires { CanCopyOpened (words src.now) from n (words vs.now) v m (words dst.old) at }
    ensures { Copied (words dst.old) at (map (open_word (run v m (words vs.now))) (drop from (words src.now))) n (words dst.new) }
{
    for i in 0..n {
        put_opened(src, from + i, vs, v, m, dst, at + i);
    }
}
