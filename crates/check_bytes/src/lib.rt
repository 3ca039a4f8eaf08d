// Whether a store's header is within its bounds, and what is not used of its regions zero.
#![tactic(auto)]

ghost use Rattle.mem_numbers.specs.Decides.{Decides};
ghost use Rattle.check_held.specs.Checks.{numbers_in, Unused};
ghost use Rattle.check_header.specs.Header.{Read};
ghost use Rattle.check_bytes.specs.Bytes.{Laid, BytesTold};

use check_header::{Header, Heading};

// Whether the bytes behind what the header counts are zero, region by region.
fn unused(store: &[u8], parts: usize, h: Header) -> bool
    requires { Laid parts store.now × Read parts (numbers_in store.now) h }
    ensures { Decides (Unused parts store.now) result }
{
    if !check_zeros::zeros(store, 18 + 3 * h.nodes + 3 * h.rules, 159789) {
        return false;
    }
    if !check_zeros::zeros(store, 159789 + 3 * h.variables, 159837) {
        return false;
    }
    check_zeros::zeros(store, 159837 + 3 * h.words, 159837 + 42 * parts)
}

// The header of a store for configurations of at most `parts` parts, if it is within its bounds and all that is not used is zero.
pub fn bytes(store: &[u8], parts: usize) -> Heading
    requires { Laid parts store.now }
    ensures { BytesTold parts store.now result }
{
    let r = check_header::read(store, parts);
    match r {
        Heading::Counted(h) => {
            let c = Header {
                nodes: h.nodes,
                rules: h.rules,
                variables: h.variables,
                words: h.words,
                next: h.next,
            };
            if unused(store, parts, h) {
                return Heading::Counted(c);
            }
            Heading::Wrong
        }
        Heading::Wrong => Heading::Wrong,
    }
}
