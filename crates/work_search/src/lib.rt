// Accessors of the cycle test's tables in the working slice.
#![tactic(auto)]

ghost use Rattle.std.specs.Prelude.{◌≤◌};
ghost use Rattle.mem_numbers.specs.Numbers.{Got};
ghost use Rattle.work_tables.specs.Tables.{marks_of, stack_of, dones_of, Laid, CanRead, CanWrite};
ghost use Rattle.work_tables.specs.Writes.{PutMark, PutStack, PutDone};
ghost use Rattle.work_search.specs.Clears.{Cleared};

// The mark at `i`.
pub fn mark_get(w: &[u8], i: usize) -> usize
    requires { CanRead w.now 2048 i }
    ensures { Got (marks_of w.now) i 65536 result }
{
    mem_parts::get::<2>(w, 0, 4096, i)
}

// Makes `v` the mark at `i`.
pub fn mark_put(w: &mut [u8], i: usize, v: usize)
    requires { CanWrite w.old 2048 i 65536 v }
    ensures { PutMark w.old i v w.new }
{
    mem_parts::put::<2>(w, 0, 4096, i, v);
}

// Makes the first `a` marks 0.
pub fn clear(w: &mut [u8], a: usize)
    requires { Laid w.old × (a ≤ 2048) }
    ensures { Cleared w.old a w.new }
{
    mem_parts::zero(w, 0, 2 * a);
}

// The stack's number at `i`.
pub fn stack_get(w: &[u8], i: usize) -> usize
    requires { CanRead w.now 2048 i }
    ensures { Got (stack_of w.now) i 65536 result }
{
    mem_parts::get::<2>(w, 4096, 8192, i)
}

// Makes `v` the stack's number at `i`.
pub fn stack_put(w: &mut [u8], i: usize, v: usize)
    requires { CanWrite w.old 2048 i 65536 v }
    ensures { PutStack w.old i v w.new }
{
    mem_parts::put::<2>(w, 4096, 8192, i, v);
}

// The count of done arguments at `i`.
pub fn done_get(w: &[u8], i: usize) -> usize
    requires { CanRead w.now 2048 i }
    ensures { Got (dones_of w.now) i 4294967296 result }
{
    mem_parts::get::<4>(w, 8192, 16384, i)
}

// Makes `v` the count of done arguments at `i`.
pub fn done_put(w: &mut [u8], i: usize, v: usize)
    requires { CanWrite w.old 2048 i 4294967296 v }
    ensures { PutDone w.old i v w.new }
{
    mem_parts::put::<4>(w, 8192, 16384, i, v);
}
