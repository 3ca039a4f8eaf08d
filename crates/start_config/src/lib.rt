// The words of a query's first configuration.
#![tactic(auto)]

ghost use Rattle.std.specs.Prelude.{◌+◌, [], ◌∷◌, take};
ghost use Rattle.mem_words.specs.Words.{words};
ghost use Rattle.start_config.specs.Grown.{Grown, frees, first_words};
ghost use Rattle.start_config.specs.Bounds.{CanThree, CanFrees, CanFirst};

use mem_sorts::{Kind, Sort};
use mem_words::Word;

// Writes three words from `k` on.
fn three(out: &mut [u8], k: usize, a: Word, b: Word, c: Word)
    requires { CanThree (words out.old) k a b c }
    ensures { Grown (words out.old) k (a ∷ b ∷ c ∷ []) (words out.new) (k + 3) }
{
    mem_put::put(out, k, a);
    mem_put::put(out, k + 1, b);
    mem_put::put(out, k + 2, c);
}

// Writes the variables from 0 on up to `v` from `k` on.
fn variables(out: &mut [u8], k: usize, v: usize)
    requires { CanFrees (words out.old) k v }
    ensures { Grown (words out.old) k (frees v) (words out.new) (k + v) }
{
    for i in 0..v {
        mem_put::put(out, k + i, Word::Free(i));
    }
}

// Writes the or-box with one and-box, whose local variables are those from 0 on up to `v`, with an empty store, and whose one member is
// the statement of the first `b` words of `goal`. Answers how many words these are.
pub fn first(goal: &[u8], b: usize, v: usize, out: &mut [u8]) -> usize
    requires { CanFirst (words goal.now) b v (words out.old) }
    ensures { Grown (words out.old) 0 (first_words v (take b (words goal.now))) (words out.new) result }
{
    three(
        out,
        0,
        Word::Place(Kind::Or),
        Word::Place(Kind::And),
        Word::Inner(Sort::Locals),
    );
    variables(out, 3, v);
    let k = 3 + v;
    three(out, k, Word::End, Word::Inner(Sort::Store), Word::End);
    let m = k + 3;
    mem_put::put(out, m, Word::Place(Kind::Member));
    let w = m + 1;
    mem_copies::copy(goal, 0, b, out, w);
    let e = w + b;
    three(out, e, Word::End, Word::End, Word::End);
    e + 3
}
