// Where the brackets open that are open on a walk, in the working slice: the innermost is found without a scan back over the words.
#![tactic(auto)]

ghost use Rattle.std.specs.Prelude.{◌≡◌};
ghost use Rattle.mem_numbers.specs.Numbers.{Got};
ghost use Rattle.mem_words.specs.Words.{words};
ghost use Rattle.work_tables.specs.Tables.{CanRead, CanWrite};
ghost use Rattle.rule_words.specs.Scans.{opens};
ghost use Rattle.step_path.specs.Paths.{path_of, CanPass, Passed, PutPlace};

use mem_words::Word;

// Where the bracket opens that has `i` around it.
pub fn get(w: &[u8], i: usize) -> usize
    requires { CanRead w.now 28672 i }
    ensures { Got (path_of w.now) i 65536 result }
{
    mem_parts::get::<2>(w, 466944, 524288, i)
}

// Makes it `v`.
fn put(w: &mut [u8], i: usize, v: usize)
    requires { CanWrite w.old 28672 i 65536 v }
    ensures { PutPlace w.old i v w.new }
{
    mem_parts::put::<2>(w, 466944, 524288, i, v);
}

fn is_bracket(x: Word) -> bool
    ensures { result ≡ opens x 0 }
{
    matches!(x, Word::Place(_) | Word::Inner(_))
}

// Goes over the word at `j`, where `h` brackets are open; so many are behind it.
pub fn pass(t: &[u8], w: &mut [u8], j: usize, h: usize) -> usize
    requires { CanPass (words t.now) w.old j h }
    ensures { Passed (words t.now) w.old j h w.new result }
{
    let x = mem_get::get(t, j);
    if is_bracket(x) {
        put(w, h, j);
        return h + 1;
    }
    if rule_shapes::ends(t, j) {
        return h - 1;
    }
    h
}
