// The tables of the working slice, as accessors. Only this crate knows where they lie: every contract above speaks of the
// tables alone.
#![tactic(auto)]

ghost use Rattle.std.specs.Prelude.{◌≡◌, ◌≤◌, length, get_or};
ghost use Rattle.mem_numbers.specs.Numbers.{Got};
ghost use Rattle.mem_words.specs.Words.{words};
ghost use Rattle.mem_parts.specs.Parts.{cut};
ghost use Rattle.work_tables.specs.Tables.{pos_of, locals_of, log_of, Laid, Logged, Peeked, CanRead, CanWrite};
ghost use Rattle.work_tables.specs.Writes.{PutPos, PutLocal};

use mem_words::Word;

// The application's position at `i`.
pub fn pos_get(w: &[u8], i: usize) -> usize
    requires { CanRead w.now 2048 i }
    ensures { Got (pos_of w.now) i 4294967296 result }
{
    mem_parts::get::<4>(w, 253952, 262144, i)
}

// Makes `v` the application's position at `i`.
pub fn pos_put(w: &mut [u8], i: usize, v: usize)
    requires { CanWrite w.old 2048 i 4294967296 v }
    ensures { PutPos w.old i v w.new }
{
    mem_parts::put::<4>(w, 253952, 262144, i, v);
}

// The mark of the variable `x`: 0 if it is no local.
pub fn local_get(w: &[u8], x: usize) -> usize
    requires { CanRead w.now 65536 x }
    ensures { Got (locals_of w.now) x 256 result }
{
    mem_parts::get1(w, 335872, 401408, x)
}

// Makes `v` the mark of the variable `x`.
pub fn local_put(w: &mut [u8], x: usize, v: usize)
    requires { CanWrite w.old 65536 x 256 v }
    ensures { PutLocal w.old x v w.new }
{
    mem_parts::put1(w, 335872, 401408, x, v);
}

// The word at `i` of the part; past its end there is none.
fn word_in(w: &[u8], a: usize, e: usize, i: usize) -> Word
    requires { (a ≤ e) × (e ≤ length w.now) }
    ensures { result ≡ get_or (words (cut a e w.now)) i Word.Bad }
{
    solve_fields::peek(&w[a..e], i)
}

// The word at `i` of the `k` words of the log; past them there is none.
pub fn peek(w: &[u8], k: usize, i: usize) -> Word
    requires { Laid w.now × Logged k }
    ensures { Peeked (log_of k w.now) i result }
{
    let e = 262144 + 3 * k;
    word_in(w, 262144, e, i)
}
