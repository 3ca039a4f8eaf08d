// The program of document 01: "reads rules.akl, query.akl, steps.txt; a file that cannot be opened counts as empty", and prints the
// record of the run. What is written is made by proved functions (record_verdict, record_lines); here it is only written, in order.
// Everything lies on the stack.
#![tactic(auto)]

ghost use Rattle.io.specs.Counts.{IsPrefixLen};

use record_verdict::Untried;
use start_lay::zeros;
use std::fs::File;
use std::io::{ErrorKind, Write};
use std::os::fd::AsRawFd;
use std::process::ExitCode;

// One byte more than the longest text that is not refused for its length: a longer one is told by it.
const TEXT: usize = 16385;

// The longest line: an answer's.
const LINE: usize = 4104;

// Reads a file, and answers how many bytes it has, as far as there is room.
fn load(rt: &HostRuntime, path: &str, space: &mut [u8]) -> usize
    ensures { IsPrefixLen result space.new }
{
    match File::open(rt, path) {
        Ok(file) => io::read_full(file.as_raw_fd(), space),
        Err(_) => 0,
    }
}

// Writes the first `n` bytes, a piece of the record.
fn write(rt: &HostRuntime, piece: &[u8], n: usize) -> std::io::Result<()> {
    if LINE < n {
        return Err(ErrorKind::InvalidInput.into()); // never: it lies in the slice
    }
    let k = io::count(n as isize, piece);
    std::io::writer(rt).write_all(&piece[..k])
}

fn write_head(rt: &HostRuntime, accepted: usize, refusal: usize) -> std::io::Result<()> {
    let mut out = zeros::<LINE>();
    let n = record_lines::head(accepted, refusal, &mut out);
    write(rt, &out, n)
}

fn write_answer(
    rt: &HostRuntime,
    store: &[u8],
    work: &mut [u8],
    number: usize,
) -> std::io::Result<()> {
    let mut out = zeros::<LINE>();
    match record_lines::answer(store, work, number, &mut out) {
        Some(n) => write(rt, &out, n),
        None => Ok(()),
    }
}

fn write_answers(
    rt: &HostRuntime,
    store: &[u8],
    work: &mut [u8],
    count: usize,
) -> std::io::Result<()> {
    for i in 0..count {
        write_answer(rt, store, work, i + 1)?;
    }
    Ok(())
}

fn write_state(rt: &HostRuntime, store: &[u8], work: &mut [u8]) -> std::io::Result<()> {
    let mut out = zeros::<LINE>();
    match record_lines::state(store, work, &mut out) {
        Some(n) => write(rt, &out, n),
        None => Ok(()),
    }
}

// Writes the record.
fn record(rt: &HostRuntime, rules: &[u8], query: &[u8], steps: &[u8]) -> std::io::Result<()> {
    let mut store = zeros::<245853>(); // the documented lengths
    let mut work = zeros::<524288>();
    match record_verdict::judge(rules, query, steps, &mut store, &mut work) {
        Err(Untried::Refused(n)) => write_head(rt, 0, n),
        Ok(ran) => {
            write_head(rt, ran.accepted, ran.refusal)?;
            let count = call_count::akl_count(&store, &mut work) / 256;
            write_answers(rt, &store, &mut work, count)?;
            write_state(rt, &store, &mut work)
        }
        // never: both slices have their documented lengths
        Err(Untried::Short) => Err(ErrorKind::InvalidInput.into()),
    }
}

fn main(rt: HostRuntime) -> ExitCode {
    let mut rules = zeros::<TEXT>();
    let n = load(&rt, "rules.akl", &mut rules);
    let mut query = zeros::<TEXT>();
    let m = load(&rt, "query.akl", &mut query);
    let mut steps = zeros::<TEXT>();
    let k = load(&rt, "steps.txt", &mut steps);
    match record(&rt, &rules[..n], &query[..m], &steps[..k]) {
        Ok(()) => ExitCode::SUCCESS,
        Err(e) => {
            let _ = eprintln!(rt; "runcheck: standard output: {e}");
            ExitCode::FAILURE
        }
    }
}
