// Accessors of the lengths that are known while an answer is measured: one entry for each application.
#![tactic(auto)]

ghost use Rattle.std.specs.Prelude.{[]};
ghost use Rattle.mem_numbers.specs.Numbers.{Got};
ghost use Rattle.answer_walk.specs.Numbered.{Numbered};
ghost use Rattle.answer_stack.specs.Slots.{numbers_of};
ghost use Rattle.work_tables.specs.Tables.{Laid, CanRead, CanWrite};
ghost use Rattle.answer_known.specs.Known.{known_of, Counted, PutKnown, NoneKnown};

// The entry of the application `k`: 0 if the length of its text is not known, else one more than that.
pub fn known_get(w: &[u8], k: usize) -> usize
    requires { CanRead w.now 2048 k }
    ensures { Got (known_of w.now) k 4294967296 result }
{
    mem_parts::get::<4>(w, 479232, 487424, k)
}

// Makes `v` the entry of the application `k`.
pub fn known_put(w: &mut [u8], k: usize, v: usize)
    requires { CanWrite w.old 2048 k 4294967296 v }
    ensures { PutKnown w.old k v w.new }
{
    mem_parts::put::<4>(w, 479232, 487424, k, v);
}

// Forgets all: no class was met, and no length is known.
pub fn forget(w: &mut [u8])
    requires { Laid w.old }
    ensures { Numbered (numbers_of w.new) [] 0 65535 × NoneKnown (known_of w.new) × Counted w.old w.new }
{
    answer_stack::clear(w);
    mem_parts::zero(w, 479232, 487424);
}
