// The names of a query's variables, as a store has them.
#![tactic(auto)]

ghost use Rattle.mem_numbers.specs.Numbers.{shorts, triples};
ghost use Rattle.start_variables.specs.Widened.{CanWiden, Widened};

// Writes the first `n` numbers of two bytes of `order` with three bytes.
pub fn widen(order: &[u8], n: usize, out: &mut [u8])
    requires { CanWiden (shorts order.now) n (triples out.old) }
    ensures { Widened (shorts order.now) n (triples out.new) }
{
    for i in 0..n {
        let v = mem_numbers::get::<2>(order, i);
        mem_numbers::put::<3>(out, i, v);
    }
}
