// The store of a query's start, written from what the reader of texts leaves.
#![tactic(auto)]

ghost use Rattle.std.specs.Prelude.{◌≡◌, length, take};
ghost use Rattle.mem_numbers.specs.Numbers.{shorts};
ghost use Rattle.mem_words.specs.Words.{words};
ghost use Rattle.start_lay.specs.Laid.{CanLay, LaidOut};

// So many zeros. (Of an array whose length is written out the prover counts the elements one by one; of a parameter it counts none.)
pub fn zeros<const N: usize>() -> [u8; N]
    ensures { N ≡ length result }
{
    [0; N]
}

// Writes the header, `m` cells of names, `a` words of the program, the numbers of the names of `v` variables, and the configuration
// whose one member is the statement of the first `b` words of `goal`.
pub fn lay(
    cells: &[u8],
    m: usize,
    rules: &[u8],
    a: usize,
    order: &[u8],
    v: usize,
    goal: &[u8],
    b: usize,
    store: &mut [u8],
)
    requires { CanLay store.old cells.now rules.now (shorts order.now) (words goal.now) m a v b }
    ensures { LaidOut store.old cells.now rules.now (shorts order.now) (take b (words goal.now)) m a v store.new }
{
    let mut variables = zeros::<48>(); // 16 numbers of three bytes
    start_variables::widen(order, v, &mut variables);
    let mut conf = zeros::<86016>(); // 14 words of three bytes for each of 2,048 parts
    let n = start_config::first(goal, b, v, &mut conf);
    let header = store_header::header_bytes(m, a, v, n, v);
    start_fill::fill(&header, cells, m, rules, a, &variables, v, &conf, n, store);
}
