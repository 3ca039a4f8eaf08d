// From two texts to a store, with tables that are lent.
#![tactic(auto)]

ghost use Rattle.mem_numbers.specs.Numbers.{shorts, triples};
ghost use Rattle.mem_words.specs.Words.{words};
ghost use Rattle.refusals.specs.Refusals.{refused_with};
ghost use Rattle.start_outcome.specs.Outcome.{StartTo};
ghost use Rattle.start_texts.specs.Tables.{Lent};

use read_inputs::Inputs;
use refusals::Refusal;

// Reads the program and the query, and writes the store of the query's start. `w` is the length of the working slice. Answers the
// refusal, if any.
pub fn texts_to_store(
    program: &[u8],
    query: &[u8],
    cells: &mut [u8],
    heads: &mut [u8],
    rules: &mut [u8],
    order: &mut [u8],
    goal: &mut [u8],
    codes: &mut [u8],
    firsts: &mut [u8],
    nexts: &mut [u8],
    stack: &mut [u8],
    binds: &mut [u8],
    saves: &mut [u8],
    store: &mut [u8],
    w: usize,
) -> Result<(), Refusal>
    requires { Lent program.now query.now (triples cells.old) (triples heads.old) (words rules.old) (shorts order.old) (words goal.old) (triples codes.old) (shorts firsts.old) (shorts nexts.old) stack.old (shorts binds.old) (shorts saves.old) }
    ensures { StartTo program.now query.now store.old w store.new (refused_with result) }
{
    let read = read_both::read(
        program, query, cells, heads, rules, order, goal, codes, firsts, nexts, stack, binds, saves,
    );
    match read {
        Inputs::Read {
            definitions: _,
            rules: a,
            variables: v,
            goal: b,
            names: m,
        } => {
            mem_numbers::put::<3>(cells, 0, 0); // the root
            start_settle::settle(cells, m, rules, a, order, v, goal, b, store, w)
        }
        Inputs::Refused(f) => Err(f),
        Inputs::Short => Err(Refusal::NotOfGrammar), // the tables are long enough, so that this is never answered
    }
}
