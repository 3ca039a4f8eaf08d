// The pieces of an answer's text put into a lent slice, or, where `write` is false, only counted. Each function takes where its piece
// begins and hands back where it ends: the slice's length + 1 where it does not fit.
#![tactic(auto)]

ghost use Rattle.std.specs.Prelude.{◌≡◌, ◌∷◌, [], ◌+◌, ◌<◌, ◌≤◌, length};
ghost use Rattle.akl.specs.Base.{bytes, decimal};
ghost use Rattle.mem_numbers.specs.Numbers.{triples};
ghost use Rattle.read_nodes.specs.Spell.{named, Lower};
ghost use Rattle.answer_emit.specs.Put.{Put, Ends, Filled};
ghost use Rattle.answer_emit.specs.Digits.{digits, Wide};

// One byte.
pub fn byte(out: &mut [u8], at: usize, b: u8, write: bool) -> usize
    ensures { Put (b ∷ []) write out.old at out.new result }
{
    if out.len() <= at {
        return out.len() + 1;
    }
    if write { // else it is only counted
        out[at] = b;
        return at + 1;
    }
    at + 1
}

// Where `len` bytes from `at` on end.
fn end_of(out: &[u8], at: usize, len: usize) -> usize
    ensures { Ends (length out.now) at len result }
{
    let cap = out.len();
    if cap < at {
        return cap + 1; // it begins behind the end
    }
    if cap - at < len {
        return cap + 1; // it ends there
    }
    at + len
}

// How many digits `n` has.
pub fn width(n: usize) -> usize
    ensures { Wide n result }
{
    let mut k = n;
    let mut c: usize = 1;
    while 10 <= k {
        k = k / 10;
        c += 1;
    }
    c
}

// Writes the last `len` digits of `n`.
fn digits_back(out: &mut [u8], at: usize, len: usize, n: usize)
    requires { at + len ≤ length out.old }
    ensures { Filled (digits len n) out.old at out.new }
{
    let mut k = n;
    for j in (0..len).rev() {
        out[at + j] = (48 + k % 10) as u8;
        k = k / 10;
    }
}

// A number in decimal.
pub fn number(out: &mut [u8], at: usize, n: usize, write: bool) -> usize
    ensures { Put (decimal n) write out.old at out.new result }
{
    let len = width(n);
    let end = end_of(out, at, len);
    if out.len() < end {
        return end;
    }
    if write { // the digits
        digits_back(out, at, len, n);
        return end;
    }
    end
}

// How many bytes the name of node `i` has.
pub fn name_length(table: &[u8], i: usize) -> usize
    requires { Lower (triples table.now) (length (triples table.now)) × (i < length (triples table.now)) }
    ensures { result ≡ length (named (triples table.now) i) }
{
    let mut k = i;
    let mut c: usize = 0;
    while 0 < k {
        k = read_nodes::parent_of(table, k);
        c += 1; // a byte
    }
    c
}

// Writes the name of node `i`, of `len` bytes.
fn name_back(table: &[u8], i: usize, out: &mut [u8], at: usize, len: usize)
    requires { Lower (triples table.now) (length (triples table.now)) × (i < length (triples table.now)) × (len ≡ length (named (triples table.now) i)) × (at + len ≤ length out.old) }
    ensures { Filled (named (triples table.now) i) out.old at out.new }
{
    let mut k = i;
    let mut j = len;
    while 0 < k {
        j -= 1;
        out[at + j] = read_nodes::byte_of(table, k);
        k = read_nodes::parent_of(table, k);
    }
}

// The name of node `i` of a table of names.
pub fn name(table: &[u8], i: usize, out: &mut [u8], at: usize, write: bool) -> usize
    requires { Lower (triples table.now) (length (triples table.now)) × (i < length (triples table.now)) }
    ensures { Put (named (triples table.now) i) write out.old at out.new result }
{
    let len = name_length(table, i);
    let end = end_of(out, at, len);
    if out.len() < end {
        return end;
    }
    if write { // the bytes
        name_back(table, i, out, at, len);
        return end;
    }
    end
}

// The bytes of `piece`.
fn text(out: &mut [u8], at: usize, piece: &[u8], write: bool) -> usize
    ensures { Put piece.now write out.old at out.new result }
{
    let end = end_of(out, at, piece.len());
    if out.len() < end {
        return end;
    }
    if write { // all of them
        out[at..end].copy_from_slice(piece);
        return end;
    }
    end
}

// Between a variable and its term.
pub fn equals(out: &mut [u8], at: usize, write: bool) -> usize
    ensures { Put (bytes " = ") write out.old at out.new result }
{
    text(out, at, b" = ", write)
}

// Between two bindings.
pub fn comma(out: &mut [u8], at: usize, write: bool) -> usize
    ensures { Put (bytes ", ") write out.old at out.new result }
{
    text(out, at, b", ", write)
}

// The text of an answer to a query without variables.
pub fn truth(out: &mut [u8], at: usize, write: bool) -> usize
    ensures { Put (bytes "true") write out.old at out.new result }
{
    text(out, at, b"true", write)
}
