// The words of lists of variables.
#![tactic(auto)]

ghost use Rattle.mem_numbers.specs.Numbers.{shorts, triples};
ghost use Rattle.mem_words.specs.Words.{words};
ghost use Rattle.read_lookups.specs.Places.{ids};
ghost use Rattle.read_varwords.specs.Vars.{CanVars, VarsTo};

use read_varwords::{Unwritten, Vars};

// Writes the words of the `count` variables at every second token from `first` on, as `variable` does.
pub fn variables(
    codes: &[u8],
    first: usize,
    count: usize,
    out: &mut [u8],
    k: usize,
    binds: &[u8],
    order: &mut [u8],
    q: usize,
    query: bool,
) -> Result<Vars, Unwritten>
    requires { CanVars (triples codes.now) first count (words out.old) k (shorts binds.now) (shorts order.old) q }
    ensures { VarsTo (ids (triples codes.now) count first) (words out.old) k (shorts binds.now) (shorts order.old) q query (words out.new) (shorts order.new) result }
{
    let mut at = k;
    let mut m = q;
    let mut any = false;
    for j in 0..count {
        let id = mem_numbers::get::<3>(codes, first + 2 * j) / 256;
        let v = read_varwords::variable(id, out, at, binds, order, m, query)?;
        at = v.out;
        m = v.known;
        any |= v.free;
    }
    Ok(Vars {
        out: at,
        known: m,
        free: any,
    })
}
