// Accessors of cells and of the trail in the working slice.
#![tactic(auto)]

ghost use Rattle.mem_numbers.specs.Numbers.{Got};
ghost use Rattle.work_tables.specs.Tables.{cells_of, vars_of, olds_of, CanRead, CanWrite};
ghost use Rattle.work_tables.specs.Writes.{PutCell, PutVar, PutOld};

// The cell at `i`.
pub fn cell_get(w: &[u8], i: usize) -> usize
    requires { CanRead w.now 65536 i }
    ensures { Got (cells_of w.now) i 16777216 result }
{
    mem_parts::get::<3>(w, 16384, 212992, i)
}

// Makes `v` the cell at `i`.
pub fn cell_put(w: &mut [u8], i: usize, v: usize)
    requires { CanWrite w.old 65536 i 16777216 v }
    ensures { PutCell w.old i v w.new }
{
    mem_parts::put::<3>(w, 16384, 212992, i, v);
}

// The trail's variable at `i`.
pub fn var_get(w: &[u8], i: usize) -> usize
    requires { CanRead w.now 8192 i }
    ensures { Got (vars_of w.now) i 65536 result }
{
    mem_parts::get::<2>(w, 212992, 229376, i)
}

// Makes `v` the trail's variable at `i`.
pub fn var_put(w: &mut [u8], i: usize, v: usize)
    requires { CanWrite w.old 8192 i 65536 v }
    ensures { PutVar w.old i v w.new }
{
    mem_parts::put::<2>(w, 212992, 229376, i, v);
}

// The trail's old cell at `i`.
pub fn old_get(w: &[u8], i: usize) -> usize
    requires { CanRead w.now 8192 i }
    ensures { Got (olds_of w.now) i 16777216 result }
{
    mem_parts::get::<3>(w, 229376, 253952, i)
}

// Makes `v` the trail's old cell at `i`.
pub fn old_put(w: &mut [u8], i: usize, v: usize)
    requires { CanWrite w.old 8192 i 16777216 v }
    ensures { PutOld w.old i v w.new }
{
    mem_parts::put::<3>(w, 229376, 253952, i, v);
}
