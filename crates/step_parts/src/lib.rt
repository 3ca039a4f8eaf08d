// An upper bound of the parts of what a rule built, from one of what stood there before.
#![tactic(auto)]

ghost use Rattle.std.specs.Prelude.{◌≡◌, ◌+◌, ◌*◌, ◌<◌, ◌≤◌, length};
ghost use Rattle.mem_words.specs.Words.{words};
ghost use Rattle.mem_parts.specs.Parts.{cut};
ghost use Rattle.store_parts.specs.declared.Among.TheVariants.{Others};
ghost use Rattle.store_parts.specs.Counting.{parts_in};
ghost use Rattle.rule_words.specs.Scans.{close};
ghost use Rattle.step_parts.specs.Bounds.{piece_parts, CanBound, Bound};

// The parts of the words in the bytes from `a` on up to `z`.
fn between(ws: &[u8], a: usize, z: usize) -> usize
    requires { (length (words ws.now) ≤ 28672) × (a ≤ z) × (z ≤ length ws.now) }
    ensures { (result ≡ parts_in Others (words (cut a z ws.now))) × (result ≤ 65536 * 28672) }
{
    store_parts::parts(&ws[a..z])
}

// The parts of the piece that opens at `i`, up to its End.
fn piece(ws: &[u8], i: usize) -> usize
    requires { (length (words ws.now) ≤ 28672) × (close (words ws.now) i < length (words ws.now)) }
    ensures { (result ≡ piece_parts (words ws.now) i) × (result ≤ 65536 * 28672) }
{
    let e = rule_close::end_of(ws, i);
    let a = 3 * i;
    let z = 3 * e + 3;
    between(ws, a, z)
}

// An upper bound of the parts of the first `x` words of `out`, which rule `r` built at `i` of words with at most `u` parts; more than 2,048
// where none is known. A rule that adds no parts keeps `u`. One that rewrites what stands at its place adds at most the parts of what
// it puts there. That it is one is said where the rules are (step_store/proofs/Bounded: `bound-fits`).
pub fn bound(out: &[u8], x: usize, u: usize, r: usize, i: usize) -> usize
    requires { CanBound out.now x u r i }
    ensures { Bound out.now x u r i result }
{
    if !step_fewer::adds(r) {
        return u;
    }
    if 28672 < x {
        return 2049; // too many in any case
    }
    if step_fewer::at_itself(r) {
        let e = 3 * x;
        let p = piece(&out[..e], i);
        return u + p;
    }
    2049
}
