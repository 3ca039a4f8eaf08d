// Reads rules.akl and query.akl and writes what they come to. Where both are read: five numbers of four bytes, the low byte
// first (definitions, words of the program, variables of the query, words of the query, nodes of the names); then the numbers
// of the variables' names, of two bytes, and the words of the program and of the query, of three. Else a line: `refusal` and
// its number. A file that cannot be opened counts as empty. The tables have room for every text within its limit.
#![tactic(auto)]

ghost use Rattle.std.specs.Prelude.{◌≡◌, length};
ghost use Rattle.io.specs.Counts.{IsPrefixLen};

use read_inputs::Inputs;
use std::fs::File;
use std::os::fd::AsRawFd;

const STDOUT: i32 = 1;

// 9 + 16,384 + 4,096 cells of three bytes.
fn cells_space() -> [u8; 61467]
    ensures { 61467 ≡ length result }
{
    [0; 61467]
}

// As many numbers of two bytes.
fn links_space() -> [u8; 40978]
    ensures { 40978 ≡ length result }
{
    [0; 40978]
}

// 128 heads of three bytes.
fn heads_space() -> [u8; 384]
    ensures { 384 ≡ length result }
{
    [0; 384]
}

// 4 * 16,384 + 8 words of three bytes.
fn rules_space() -> [u8; 196632]
    ensures { 196632 ≡ length result }
{
    [0; 196632]
}

// 16 numbers of two bytes.
fn order_space() -> [u8; 32]
    ensures { 32 ≡ length result }
{
    [0; 32]
}

// 4 * 4,096 + 8 words of three bytes.
fn goal_space() -> [u8; 49176]
    ensures { 49176 ≡ length result }
{
    [0; 49176]
}

// 16,384 codes of three bytes.
fn codes_space() -> [u8; 49152]
    ensures { 49152 ≡ length result }
{
    [0; 49152]
}

// A byte for each bracket that may be open.
fn stack_space() -> [u8; 16384]
    ensures { 16384 ≡ length result }
{
    [0; 16384]
}

// 16,384 numbers of two bytes.
fn saves_space() -> [u8; 32768]
    ensures { 32768 ≡ length result }
{
    [0; 32768]
}

// The longest text that is told from a longer one.
fn text_space() -> [u8; 20480]
    ensures { 20480 ≡ length result }
{
    [0; 20480]
}

// Reads a file, and answers how many bytes it has.
fn load(rt: &HostRuntime, path: &str, space: &mut [u8]) -> usize
    ensures { IsPrefixLen result space.new }
{
    match File::open(rt, path) {
        Ok(file) => io::read_full(file.as_raw_fd(), space),
        Err(_) => 0,
    }
}

// A number of four bytes.
fn write_count(v: usize) {
    let bytes = [
        (v % 256) as u8,
        (v / 256 % 256) as u8,
        (v / 65536 % 256) as u8,
        (v / 16777216 % 256) as u8,
    ];
    io::write_all(STDOUT, &bytes);
}

// The first `e` bytes of a table.
fn write_first(table: &[u8], e: usize) {
    if e <= 210000 {
        let n = io::count(e as isize, table);
        io::write_all(STDOUT, &table[..n]);
    }
}

// The first `n` numbers of two bytes.
fn write_shorts(table: &[u8], n: usize) {
    if n <= 70000 {
        write_first(table, 2 * n);
    }
}

// The first `n` words.
fn write_words(table: &[u8], n: usize) {
    if n <= 70000 {
        write_first(table, 3 * n);
    }
}

fn answer(program: &[u8], query: &[u8]) {
    let mut cells = cells_space();
    let mut heads = heads_space();
    let mut rules = rules_space();
    let mut order = order_space();
    let mut goal = goal_space();
    let mut codes = codes_space();
    let mut firsts = links_space();
    let mut nexts = links_space();
    let mut stack = stack_space();
    let mut binds = links_space();
    let mut saves = saves_space();
    let r = read_both::read(
        program,
        query,
        &mut cells,
        &mut heads,
        &mut rules,
        &mut order,
        &mut goal,
        &mut codes,
        &mut firsts,
        &mut nexts,
        &mut stack,
        &mut binds,
        &mut saves,
    );
    match r {
        Inputs::Read {
            definitions,
            rules: a,
            variables,
            goal: b,
            names,
        } => {
            write_count(definitions);
            write_count(a);
            write_count(variables);
            write_count(b);
            write_count(names);
            write_shorts(&order, variables);
            write_words(&rules, a);
            write_words(&goal, b);
        }
        Inputs::Refused(f) => {
            io::write_all(STDOUT, b"refusal ");
            io::print_decimal(STDOUT, f.number() as u64);
            io::write_all(STDOUT, b"\n");
        }
        Inputs::Short => {
            io::write_all(STDOUT, b"short\n");
        }
    }
}

fn main(rt: HostRuntime) {
    let mut rules = text_space();
    let n = load(&rt, "rules.akl", &mut rules);
    let mut goal = text_space();
    let m = load(&rt, "query.akl", &mut goal);
    answer(&rules[..n], &goal[..m]);
}
