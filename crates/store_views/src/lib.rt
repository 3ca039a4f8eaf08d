// What a store's header says: where the program begins, how many words it and the configuration have, and the next fresh number.
#![tactic(auto)]

ghost use Rattle.std.specs.Prelude.{◌≡◌, ◌+◌, ◌*◌, ◌≤◌, ◌<◌, length};
ghost use Rattle.check_held.specs.Checks.{nodes_in, rules_in, words_in, next_in};

// Where the words of the program begin: behind the names.
pub fn program_start(b: &[u8]) -> usize
    requires { 18 ≤ length b.now }
    ensures { result ≡ 18 + 3 * nodes_in b.now }
{
    let n = mem_parts::get::<3>(b, 0, 18, 1);
    18 + 3 * n
}

// How many words the program has.
pub fn program_count(b: &[u8]) -> usize
    requires { 18 ≤ length b.now }
    ensures { (result ≡ rules_in b.now) × (result < 16777216) }
{
    mem_parts::get::<3>(b, 0, 18, 2)
}

// How many words the configuration has.
pub fn config_count(b: &[u8]) -> usize
    requires { 18 ≤ length b.now }
    ensures { (result ≡ words_in b.now) × (result < 16777216) }
{
    mem_parts::get::<3>(b, 0, 18, 4)
}

// The next fresh number.
pub fn next_number(b: &[u8]) -> usize
    requires { 18 ≤ length b.now }
    ensures { (result ≡ next_in b.now) × (result < 16777216) }
{
    mem_parts::get::<3>(b, 0, 18, 5)
}
