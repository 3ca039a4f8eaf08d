// The word of a variable: its level where the name is bound; else, in a query, its number.
#![tactic(auto)]

ghost use Rattle.std.specs.Prelude.{◌≡◌, [], ◌∷◌};
ghost use Rattle.mem_numbers.specs.Numbers.{shorts};
ghost use Rattle.mem_words.specs.Words.{words};
ghost use Rattle.mem_words.specs.declared.Word.TheVariants.{Free};
ghost use Rattle.read_varwords.specs.Vars.{CanVar, VarsTo};

use mem_words::Word;
use read_lookups::Variable;

// The words of variables are written: the position behind them, how many names are known, and whether a name is not bound.
#[derive(Clone, Copy, Debug, PartialEq, Eq)]
pub struct Vars {
    pub out: usize,
    pub known: usize,
    pub free: bool,
}

// Why they are not written: a query has too many variables, or there was no room.
#[derive(Clone, Copy, Debug, PartialEq, Eq)]
pub enum Unwritten {
    Many,
    Full,
}

// The word of a query variable.
fn free(v: Variable) -> Word
    ensures { result ≡ Free v.0 }
{
    Word::Free(v.0)
}

// Writes the word of the variable `id`: its level where it is bound; else, in a query, its number among the first `q` names of
// `order`, where a new one is put behind them; else `Free(0)`.
pub fn variable(
    id: usize,
    out: &mut [u8],
    k: usize,
    binds: &[u8],
    order: &mut [u8],
    q: usize,
    query: bool,
) -> Result<Vars, Unwritten>
    requires { CanVar id (shorts binds.now) (shorts order.old) q }
    ensures { VarsTo (id ∷ []) (words out.old) k (shorts binds.now) (shorts order.old) q query (words out.new) (shorts order.new) result }
{
    let l = mem_numbers::get::<2>(binds, id);
    if 0 < l {
        if !read_emits::emit(out, k, Word::Level(l - 1)) {
            return Err(Unwritten::Full);
        }
        return Ok(Vars {
            out: k + 1,
            known: q,
            free: false,
        });
    }
    if !query {
        if !read_emits::emit(out, k, Word::Free(0)) {
            return Err(Unwritten::Full);
        }
        return Ok(Vars {
            out: k + 1,
            known: q,
            free: true,
        });
    }
    let next = Variable(q); // the number of a new name
    let f = read_lookups::number_of(order, q, id);
    match f {
        Some(v) => {
            if !read_emits::emit(out, k, free(v)) {
                return Err(Unwritten::Full);
            }
            Ok(Vars {
                out: k + 1,
                known: q,
                free: false,
            })
        }
        None => {
            if 16 <= q {
                return Err(Unwritten::Many);
            }
            mem_numbers::put::<2>(order, q, id);
            if !read_emits::emit(out, k, free(next)) {
                return Err(Unwritten::Full);
            }
            Ok(Vars {
                out: k + 1,
                known: q + 1,
                free: false,
            })
        }
    }
}
