// The header's numbers of a store, within their bounds.
#![tactic(auto)]

ghost use Rattle.std.specs.Prelude.{◌≡◌, ◌≤◌, length};
ghost use Rattle.mem_numbers.specs.Numbers.{triples};
ghost use Rattle.check_held.specs.Checks.{numbers_in};
ghost use Rattle.check_header.specs.Header.{Headed};

// The counts of nodes of names, of the program's words, of the query's variables and of the configuration's words, and the next
// fresh number.
#[derive(Clone, Copy)]
pub struct Header {
    pub nodes: usize,
    pub rules: usize,
    pub variables: usize,
    pub words: usize,
    pub next: usize,
}

// The header's numbers, or that they are out of bounds.
#[derive(Clone, Copy)]
pub enum Heading {
    Counted(Header),
    Wrong,
}

// The six numbers of a header, for configurations of at most `parts` parts.
fn numbers(h: &[u8], parts: usize) -> Heading
    requires { (length (triples h.now) ≡ 6) × (parts ≤ 65536) }
    ensures { Headed parts (triples h.now) result }
{
    if mem_numbers::get::<3>(h, 0) != 2 {
        return Heading::Wrong;
    }
    let nodes = mem_numbers::get::<3>(h, 1);
    if nodes == 0 {
        return Heading::Wrong;
    }
    if nodes > 20489 {
        return Heading::Wrong;
    }
    let rules = mem_numbers::get::<3>(h, 2);
    if rules > 40960 {
        return Heading::Wrong;
    }
    if nodes + rules > 53257 {
        return Heading::Wrong;
    }
    let variables = mem_numbers::get::<3>(h, 3);
    if variables > 16 {
        return Heading::Wrong;
    }
    let words = mem_numbers::get::<3>(h, 4);
    if words > 14 * parts {
        return Heading::Wrong;
    }
    let next = mem_numbers::get::<3>(h, 5);
    if next >= 65536 {
        return Heading::Wrong;
    }
    Heading::Counted(Header {
        nodes,
        rules,
        variables,
        words,
        next,
    })
}

// The header of a store, for configurations of at most `parts` parts.
pub fn read(store: &[u8], parts: usize) -> Heading
    requires { (18 ≤ length store.now) × (parts ≤ 65536) }
    ensures { Headed parts (numbers_in store.now) result }
{
    let e = 18;
    numbers(&store[..e], parts)
}
