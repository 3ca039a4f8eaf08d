// All regions of a store written.
#![tactic(auto)]

ghost use Rattle.std.specs.Prelude.{◌*◌, take};
ghost use Rattle.start_fill.specs.Filled.{CanFill, Filled, Known};

// Fills `store`: its header; the cells of `m` nodes of names; `a` words of the program; `v` numbers of the names of variables; and `n`
// words of the configuration. All have three bytes.
pub fn fill(
    header: &[u8],
    names: &[u8],
    m: usize,
    rules: &[u8],
    a: usize,
    variables: &[u8],
    v: usize,
    words: &[u8],
    n: usize,
    store: &mut [u8],
)
    requires { CanFill store.old header.now names.now rules.now variables.now words.now m a v n }
    ensures { Filled m store.old (take 18 header.now) (take (3 * m) names.now) (take (3 * a) rules.now) (take (3 * v) variables.now) (take (3 * n) words.now) store.new × Known names.now rules.now variables.now words.now }
{
    store_regions::put_region(store, 0, 18, header, 18);
    let e = 18 + 3 * m;
    store_regions::put_region(store, 18, e, names, 3 * m);
    store_regions::put_region(store, e, 159789, rules, 3 * a);
    store_regions::put_region(store, 159789, 159837, variables, 3 * v);
    store_regions::put_region(store, 159837, 245853, words, 3 * n);
}
