// The tables that tests of variables use in the working slice, as accessors. Only this crate knows where they lie.
#![tactic(auto)]

ghost use Rattle.mem_numbers.specs.Numbers.{Got};
ghost use Rattle.work_tables.specs.Tables.{Laid, CanRead, CanWrite};
ghost use Rattle.check_vartables.specs.Tables.{names_of, stack_of, links_of, PutName, PutStack, PutLink, NamesZero};

// The number kept for the variable `i`.
pub fn name_get(w: &[u8], i: usize) -> usize
    requires { CanRead w.now 65536 i }
    ensures { Got (names_of w.now) i 65536 result }
{
    mem_parts::get::<2>(w, 262144, 393216, i)
}

// Keeps `v` for the variable `i`.
pub fn name_put(w: &mut [u8], i: usize, v: usize)
    requires { CanWrite w.old 65536 i 65536 v }
    ensures { PutName w.old i v w.new }
{
    mem_parts::put::<2>(w, 262144, 393216, i, v);
}

// The stack's number at `i`.
pub fn stack_get(w: &[u8], i: usize) -> usize
    requires { CanRead w.now 28672 i }
    ensures { Got (stack_of w.now) i 65536 result }
{
    mem_parts::get::<2>(w, 393216, 450560, i)
}

// Makes `v` the stack's number at `i`.
pub fn stack_put(w: &mut [u8], i: usize, v: usize)
    requires { CanWrite w.old 28672 i 65536 v }
    ensures { PutStack w.old i v w.new }
{
    mem_parts::put::<2>(w, 393216, 450560, i, v);
}

// The number kept for the word at `i`.
pub fn link_get(w: &[u8], i: usize) -> usize
    requires { CanRead w.now 28672 i }
    ensures { Got (links_of w.now) i 65536 result }
{
    mem_parts::get::<2>(w, 450560, 507904, i)
}

// Keeps `v` for the word at `i`.
pub fn link_put(w: &mut [u8], i: usize, v: usize)
    requires { CanWrite w.old 28672 i 65536 v }
    ensures { PutLink w.old i v w.new }
{
    mem_parts::put::<2>(w, 450560, 507904, i, v);
}

// Makes the numbers of all variables zero.
pub fn names_zero(w: &mut [u8])
    requires { Laid w.old }
    ensures { NamesZero w.old w.new }
{
    mem_parts::zero(w, 262144, 393216);
}
