// Whether standard input is a text: a query where the first argument begins with `q`, else a program. Writes `ok`, or the
// number of the refusal, 1 or 2. The tables have room for every text within its limit.
#![tactic(auto)]

ghost use Rattle.std.specs.Prelude.{◌≡◌, length};
ghost use Rattle.akl.specs.Limits.{program_bytes, query_bytes};
ghost use Rattle.akl.specs.Parse.{parse_query, parse_program};
ghost use Rattle.read_textcheck.specs.Checked.{Checked};

use read_texts::Readable;
use std::env::Env;

const STDIN: i32 = 0;

const STDOUT: i32 = 1;

// 16,384 codes of three bytes.
fn codes_space() -> [u8; 49152]
    ensures { 49152 ≡ length result }
{
    [0; 49152]
}

// 16,400 cells of three bytes.
fn cells_space() -> [u8; 49200]
    ensures { 49200 ≡ length result }
{
    [0; 49200]
}

// 16,400 numbers of two bytes.
fn links_space() -> [u8; 32800]
    ensures { 32800 ≡ length result }
{
    [0; 32800]
}

// A byte for each bracket that may be open.
fn stack_space() -> [u8; 16384]
    ensures { 16384 ≡ length result }
{
    [0; 16384]
}

// The longest text that is told from a longer one.
fn text_space() -> [u8; 20480]
    ensures { 20480 ≡ length result }
{
    [0; 20480]
}

fn query(text: &[u8]) -> Readable
    ensures { Checked query_bytes parse_query text.now result }
{
    let mut codes = codes_space();
    let mut cells = cells_space();
    let mut heads = links_space();
    let mut nexts = links_space();
    let mut stack = stack_space();
    if !read_lexicon::reserve(&mut cells, &mut heads, &mut nexts) {
        return Readable::Short;
    }
    read_texts::query_text(
        text, &mut codes, &mut cells, &mut heads, &mut nexts, &mut stack, 9,
    )
}

fn program(text: &[u8]) -> Readable
    ensures { Checked program_bytes parse_program text.now result }
{
    let mut codes = codes_space();
    let mut cells = cells_space();
    let mut heads = links_space();
    let mut nexts = links_space();
    let mut stack = stack_space();
    if !read_lexicon::reserve(&mut cells, &mut heads, &mut nexts) {
        return Readable::Short;
    }
    read_programtext::program_text(
        text, &mut codes, &mut cells, &mut heads, &mut nexts, &mut stack, 9,
    )
}

fn say(r: Readable) {
    match r {
        Readable::Yes {
            tokens: _tokens,
            names: _names,
        } => {
            io::write_all(STDOUT, b"ok\n");
        }
        Readable::Long => {
            io::write_all(STDOUT, b"1\n");
        }
        Readable::Odd => {
            io::write_all(STDOUT, b"2\n");
        }
        Readable::Short => {
            io::write_all(STDOUT, b"short\n");
        }
    }
}

fn main(rt: HostRuntime) {
    // (of a longer argument its first four bytes)
    let mut word = [0u8; 4];
    let _ = rt.arg(1, &mut word);
    let kind = word[0];
    let mut space = text_space();
    let n = io::read_full(STDIN, &mut space);
    if kind == b'q' {
        say(query(&space[..n]));
        return;
    }
    say(program(&space[..n]));
}
