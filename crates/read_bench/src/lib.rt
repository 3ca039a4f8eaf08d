// `read_both::read` as a function that C and Rust can call, for tests/reader and bench/reader.
#![tactic(auto)]

ghost use Rattle.mem_numbers.specs.Numbers.{shorts, triples, longs};
ghost use Rattle.mem_words.specs.Words.{words};
ghost use Rattle.read_inputs.specs.Inputs.{InputsTo};
ghost use Rattle.read_bench.specs.Number.{Written, Numbered};

use read_inputs::Inputs;

// Whether five counts fit in four bytes each and there is room for them. Writes them where they do.
fn counted(counts: &mut [u8], a: usize, b: usize, c: usize, d: usize, e: usize) -> bool
    ensures { Written (longs counts.old) a b c d e (longs counts.new) result }
{
    if mem_numbers::count::<4>(counts) < 5 {
        return false;
    }
    if 4294967295 < a {
        return false;
    }
    if 4294967295 < b {
        return false;
    }
    if 4294967295 < c {
        return false;
    }
    if 4294967295 < d {
        return false;
    }
    if 4294967295 < e {
        return false;
    }
    mem_numbers::put::<4>(counts, 0, a);
    mem_numbers::put::<4>(counts, 1, b);
    mem_numbers::put::<4>(counts, 2, c);
    mem_numbers::put::<4>(counts, 3, d);
    mem_numbers::put::<4>(counts, 4, e);
    true
}

// As `read_both::read`. Hands back 0 and leaves the five counts in `counts`; or the refusal's number; or 20 where `counts` has no
// room for five numbers of four bytes, 21 where a table is too short, 22 where a count is of more than four bytes.
#[unsafe(no_mangle)]
pub extern "C" fn texts_read(
    program: &[u8],
    query: &[u8],
    cells: &mut [u8],
    heads: &mut [u8],
    rules: &mut [u8],
    order: &mut [u8],
    goal: &mut [u8],
    codes: &mut [u8],
    firsts: &mut [u8],
    nexts: &mut [u8],
    stack: &mut [u8],
    binds: &mut [u8],
    saves: &mut [u8],
    counts: &mut [u8],
) -> u32
    ensures { Numbered (InputsTo program.now query.now (triples cells.old) (triples heads.old) (words rules.old) (shorts order.old) (words goal.old) (triples codes.old) (shorts firsts.old) (shorts nexts.old) stack.old (shorts binds.old) (shorts saves.old) (triples cells.new) (triples heads.new) (words rules.new) (shorts order.new) (words goal.new)) (longs counts.old) (longs counts.new) result }
{
    if mem_numbers::count::<4>(counts) < 5 {
        return 20;
    }
    let r = read_both::read(
        program, query, cells, heads, rules, order, goal, codes, firsts, nexts, stack, binds, saves,
    );
    match r {
        Inputs::Read {
            definitions,
            rules: a,
            variables,
            goal: b,
            names,
        } => {
            if counted(counts, definitions, a, variables, b, names) {
                return 0;
            }
            22
        }
        Inputs::Refused(f) => f.number(),
        Inputs::Short => 21,
    }
}
