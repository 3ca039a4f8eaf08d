// Numbers of names looked up in tables: the level, the first place, and whether a number is listed.
#![tactic(auto)]

ghost use Rattle.std.specs.Prelude.{◌≡◌, ◌≤◌, length, get_or, take};
ghost use Rattle.mem_numbers.specs.Numbers.{shorts, triples};
ghost use Rattle.read_lookups.specs.Places.{among};
ghost use Rattle.read_lookups.specs.Finding.{FoundAt};

// A variable's number: that of a query variable is its position by first free occurrence.
#[derive(Clone, Copy)]
pub struct Variable(pub usize);

// The value of the name `id`; 0 where the table has none.
pub fn level_of(binds: &[u8], id: usize) -> usize
    ensures { result ≡ get_or (shorts binds.now) id 0 }
{
    if id < mem_numbers::count::<2>(binds) {
        return mem_numbers::get::<2>(binds, id);
    }
    0
}

// The first position of `id` among the first `k` numbers of `order`.
pub fn number_of(order: &[u8], k: usize, id: usize) -> Option<Variable>
    requires { k ≤ length (shorts order.now) }
    ensures { FoundAt (shorts order.now) k id result }
{
    for i in 0..k {
        if mem_numbers::get::<2>(order, i) == id {
            return Some(Variable(i));
        }
    }
    None
}

// Whether `head` is among the first `k` numbers of `heads`.
pub fn listed(heads: &[u8], k: usize, head: usize) -> bool
    requires { k ≤ length (triples heads.now) }
    ensures { result ≡ among head (take k (triples heads.now)) }
{
    for m in 0..k {
        if mem_numbers::get::<3>(heads, m) == head {
            return true;
        }
    }
    false
}
