// What stands behind the counts in the reader's outputs made zero.
#![tactic(auto)]

ghost use Rattle.std.specs.Prelude.{◌≤◌, length};
ghost use Rattle.read_behind.specs.Behind.{Behind, Within, AllBehind};

// Makes zero what stands behind the first `n` bytes.
fn zero_from(b: &mut [u8], n: usize)
    requires { n ≤ length b.old }
    ensures { Behind n b.old b.new }
{
    let e = b.len();
    mem_parts::zero(b, n, e);
}

// Makes zero what stands behind `m` cells, `d` heads, `a` words of the program, `v` variables and `k` words of the query.
pub fn clear_behind(
    cells: &mut [u8],
    heads: &mut [u8],
    rules: &mut [u8],
    order: &mut [u8],
    goal: &mut [u8],
    d: usize,
    a: usize,
    v: usize,
    k: usize,
    m: usize,
)
    requires { Within d a v k m cells.old heads.old rules.old order.old goal.old }
    ensures { AllBehind d a v k m cells.old cells.new heads.old heads.new rules.old rules.new order.old order.new goal.old goal.new }
{
    zero_from(cells, 3 * m);
    zero_from(heads, 3 * d);
    zero_from(rules, 3 * a);
    zero_from(order, 2 * v);
    zero_from(goal, 3 * k);
}
