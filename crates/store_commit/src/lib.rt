// A new configuration written into a store: all else of it stays. Whether it is within the limits is found out before.
#![tactic(auto)]

ghost use Rattle.std.specs.Prelude.{IfOk, ◌≡◌, [], ◌∷◌, ◌*◌, ◌<◌, ◌≤◌, length, take};
ghost use Rattle.akl.specs.Limits.{most_parts};
ghost use Rattle.mem_words.specs.Words.{words};
ghost use Rattle.store_form.specs.Form.{numbers_bytes};
ghost use Rattle.store_parts.specs.declared.Among.TheVariants.{Others};
ghost use Rattle.store_parts.specs.Counting.{parts_in};
ghost use Rattle.store_commit.specs.Committed.{CanCommit, Committed};
ghost use Rattle.store_commit.specs.Settled.{CanSettle, Settled, Written};
ghost use Rattle.refusals.specs.Refusals.{refused_with};

use refusals::Refusal;

// The header's last two numbers as bytes.
fn count_bytes(n: usize, next: usize) -> [u8; 6]
    ensures { result ≡ numbers_bytes (n ∷ next ∷ []) }
{
    [
        (n % 256) as u8,
        (n / 256 % 256) as u8,
        (n / 65536 % 256) as u8,
        (next % 256) as u8,
        (next / 256 % 256) as u8,
        (next / 65536 % 256) as u8,
    ]
}

// The larger of two numbers of words.
fn larger(n: usize, old: usize) -> usize
    requires { (n ≤ 28672) × (old ≤ 28672) }
    ensures { (n ≤ result) × (old ≤ result) × (result ≤ 28672) }
{
    if n < old { old } else { n }
}

// Makes the first `n` words of `src` the configuration of the store `b`, and `next` its next fresh number. Of the configuration that
// was there, `old` words, nothing is left behind them; what stands behind that is zero already.
pub fn commit(b: &mut [u8], src: &[u8], n: usize, next: usize, old: usize)
    requires { CanCommit b.old src.now n old }
    ensures { Committed b.old src.now n next b.new }
{
    let counts = count_bytes(n, next);
    store_regions::put_region(b, 12, 18, &counts, 6);
    let most = larger(n, old);
    let e = 159837 + 3 * most;
    store_regions::put_region(b, 159837, e, src, 3 * n);
}

// At least the parts of the first `n` words of `out`; more than 2,048 only where they are. Where `most` is within the limit it is an upper bound
// of them and is handed back; else they are counted.
fn counted(out: &[u8], n: usize, most: usize) -> usize
    requires { (3 * n ≤ length out.now) × (n ≤ 1048576) × (most ≤ most_parts → parts_in Others (take n (words out.now)) ≤ most) }
    ensures { (parts_in Others (take n (words out.now)) ≤ result) × (most_parts < result → most_parts < parts_in Others (take n (words out.now))) }
{
    if most <= 2048 {
        return most;
    }
    let e = 3 * n;
    store_parts::parts(&out[..e])
}

// 14 where the next fresh number would pass 65,535, 15 where the configuration that was built as `n` words in `out` has too many parts;
// else writes it into the store `b`, over the `old` words there, and hands back an upper bound of its parts. Words of a configuration within
// the limits are at most 28,672. Where `most` is within the limit the parts are at most `most`, and are not counted.
pub fn settle(
    b: &mut [u8],
    out: &[u8],
    n: usize,
    next: usize,
    old: usize,
    most: usize,
) -> Result<usize, Refusal>
    requires { CanSettle b.old out.now n old most }
    ensures { Settled b.old out.now n next b.new (refused_with result) × IfOk result (Written out.now n) }
{
    if 65535 < next {
        return Err(Refusal::NoFreshNumber);
    }
    if 28672 < n {
        return Err(Refusal::TooManyParts); // more words than so few parts have
    }
    let p = counted(out, n, most);
    if 2048 < p {
        return Err(Refusal::TooManyParts);
    }
    commit(b, out, n, next, old);
    Ok(p) // the parts counted
}
