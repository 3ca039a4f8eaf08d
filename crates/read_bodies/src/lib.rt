// The bodies of all definitions, one after another.
#![tactic(auto)]

ghost use Rattle.mem_numbers.specs.Numbers.{shorts, triples};
ghost use Rattle.mem_words.specs.Words.{words};
ghost use Rattle.read_definitions.specs.Definitions.{CanBodies, Bodies};

use read_pieces::Read;

// Reads all definitions.
pub fn bodies(
    codes: &[u8],
    heads: &[u8],
    out: &mut [u8],
    binds: &mut [u8],
    saves: &mut [u8],
    order: &mut [u8],
) -> Read
    requires { CanBodies (triples codes.now) (shorts binds.old) (shorts order.old) (triples heads.now) }
    ensures { Bodies (triples codes.now) (shorts binds.old) (shorts saves.old) (shorts order.old) (triples heads.now) (words out.old) (words out.new) result }
{
    let n = mem_numbers::count::<3>(codes);
    let mut i = 0;
    let mut k = 0;
    let mut f = 8;
    while i < n {
        let d = read_definitions::definition(codes, heads, out, binds, saves, order, i, k);
        match d {
            Read::Done {
                at,
                out: o,
                known: _known,
                fault,
            } => {
                i = at;
                k = o;
                f = read_pieces::lower(f, fault);
            }
            Read::Three => {
                return Read::Three;
            }
            Read::Odd => {
                return Read::Odd;
            }
            Read::Full => {
                return Read::Full;
            }
        }
    }
    Read::Done {
        at: i,
        out: k,
        known: 0,
        fault: f,
    }
}
