// A region of a store written.
#![tactic(auto)]

ghost use Rattle.std.specs.Prelude.{take};
ghost use Rattle.store_regions.specs.Regions.{CanRegion, Regioned};

// Makes the region of `store` from `a` on up to `e` hold the first `n` bytes of `src`, with zeros behind them.
pub fn put_region(store: &mut [u8], a: usize, e: usize, src: &[u8], n: usize)
    requires { CanRegion store.old a e src.now n }
    ensures { Regioned store.old a e (take n src.now) store.new }
{
    mem_copies::copy_bytes(src, 0, n, store, a);
    mem_parts::zero(store, a + n, e);
}
