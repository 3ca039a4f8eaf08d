// Accessors of what the traversal of an answer keeps in the working slice: the numbers of unknowns, and its stack.
#![tactic(auto)]

ghost use Rattle.std.specs.Prelude.{[]};
ghost use Rattle.mem_numbers.specs.Numbers.{Got};
ghost use Rattle.answer_walk.specs.Numbered.{Numbered};
ghost use Rattle.work_tables.specs.Tables.{Laid, CanRead, CanWrite};
ghost use Rattle.answer_stack.specs.Slots.{numbers_of, places_of, begun_of, Answered, PutNumber, PutPlace, PutBegun, CanPush, Pushed};

// The entry of the class `r`: 0 if it was not met.
pub fn number_get(w: &[u8], r: usize) -> usize
    requires { CanRead w.now 65536 r }
    ensures { Got (numbers_of w.now) r 65536 result }
{
    mem_parts::get::<2>(w, 335872, 466944, r)
}

// Makes `v` the entry of the class `r`.
pub fn number_put(w: &mut [u8], r: usize, v: usize)
    requires { CanWrite w.old 65536 r 65536 v }
    ensures { PutNumber w.old r v w.new }
{
    mem_parts::put::<2>(w, 335872, 466944, r, v);
}

// No class was met.
pub fn clear(w: &mut [u8])
    requires { Laid w.old }
    ensures { Numbered (numbers_of w.new) [] 0 65535 × Answered w.old w.new }
{
    mem_parts::zero(w, 335872, 466944);
}

// The application at `i` of the stack, by its position in the log or by its number, as it was put.
pub fn place_get(w: &[u8], i: usize) -> usize
    requires { CanRead w.now 2048 i }
    ensures { Got (places_of w.now) i 4294967296 result }
{
    mem_parts::get::<4>(w, 466944, 475136, i)
}

// Makes `p` the application at `i` of the stack.
fn place_put(w: &mut [u8], i: usize, p: usize)
    requires { CanWrite w.old 2048 i 4294967296 p }
    ensures { PutPlace w.old i p w.new }
{
    mem_parts::put::<4>(w, 466944, 475136, i, p);
}

// How many arguments of the application at `i` of the stack were begun.
pub fn begun_get(w: &[u8], i: usize) -> usize
    requires { CanRead w.now 2048 i }
    ensures { Got (begun_of w.now) i 65536 result }
{
    mem_parts::get::<2>(w, 475136, 479232, i)
}

// Makes it `k`.
pub fn begun_put(w: &mut [u8], i: usize, k: usize)
    requires { CanWrite w.old 2048 i 65536 k }
    ensures { PutBegun w.old i k w.new }
{
    mem_parts::put::<2>(w, 475136, 479232, i, k);
}

// Puts the application at `p`, with `k` arguments begun, at `h` of the stack.
pub fn push(w: &mut [u8], h: usize, p: usize, k: usize)
    requires { CanPush w.old h p k }
    ensures { Pushed w.old h p k w.new }
{
    place_put(w, h, p);
    begun_put(w, h, k);
}
