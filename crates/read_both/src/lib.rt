// A program and a query from bytes, with all tables made anew, so without preconditions.
#![tactic(auto)]

ghost use Rattle.mem_numbers.specs.Numbers.{shorts, triples};
ghost use Rattle.mem_words.specs.Words.{words};
ghost use Rattle.read_inputs.specs.Inputs.{InputsTo, Outputs};

use read_inputs::Inputs;
use read_programs::Programmed;
use read_queries::Queried;

// As `read`, but for what is left behind the counts, and where there is a refusal.
fn load(
    program: &[u8],
    query: &[u8],
    cells: &mut [u8],
    heads: &mut [u8],
    rules: &mut [u8],
    order: &mut [u8],
    goal: &mut [u8],
    codes: &mut [u8],
    firsts: &mut [u8],
    nexts: &mut [u8],
    stack: &mut [u8],
    binds: &mut [u8],
    saves: &mut [u8],
) -> Inputs
    ensures { InputsTo program.now query.now (triples cells.old) (triples heads.old) (words rules.old) (shorts order.old) (words goal.old) (triples codes.old) (shorts firsts.old) (shorts nexts.old) stack.old (shorts binds.old) (shorts saves.old) (triples cells.new) (triples heads.new) (words rules.new) (shorts order.new) (words goal.new) result }
{
    if !read_lexicon::reserve(cells, firsts, nexts) {
        return Inputs::Short;
    }
    let p = read_rules::program(
        program, codes, cells, firsts, nexts, stack, 9, heads, rules, binds, saves, order,
    );
    match p {
        Programmed::Read {
            definitions,
            words: a,
            names: m,
        } => {
            let e = 3 * definitions;
            let q = read_queries::query(
                query,
                codes,
                cells,
                firsts,
                nexts,
                stack,
                m,
                &heads[..e],
                goal,
                binds,
                saves,
                order,
            );
            match q {
                Queried::Read {
                    variables,
                    words: b,
                    names,
                } => Inputs::Read {
                    definitions,
                    rules: a,
                    variables,
                    goal: b,
                    names,
                },
                Queried::Refused(r) => Inputs::Refused(r), // a refusal of the query
                Queried::Short => Inputs::Short,
            }
        }
        Programmed::Refused(r) => Inputs::Refused(r), // a refusal of the program comes first
        Programmed::Short => Inputs::Short,
    }
}

// Reads the program and then the query. Names are left in `cells`, as a trie; the definitions' heads in `heads` and their words
// in `rules`; the names of the query's variables in `order`, and its words in `goal`. These are zero behind what is counted, and all
// zero where there is a refusal or a table is too short. Every other slice is working room.
pub fn read(
    program: &[u8],
    query: &[u8],
    cells: &mut [u8],
    heads: &mut [u8],
    rules: &mut [u8],
    order: &mut [u8],
    goal: &mut [u8],
    codes: &mut [u8],
    firsts: &mut [u8],
    nexts: &mut [u8],
    stack: &mut [u8],
    binds: &mut [u8],
    saves: &mut [u8],
) -> Inputs
    ensures { InputsTo program.now query.now (triples cells.old) (triples heads.old) (words rules.old) (shorts order.old) (words goal.old) (triples codes.old) (shorts firsts.old) (shorts nexts.old) stack.old (shorts binds.old) (shorts saves.old) (triples cells.new) (triples heads.new) (words rules.new) (shorts order.new) (words goal.new) result × Outputs result cells.old cells.new heads.old heads.new rules.old rules.new order.old order.new goal.old goal.new }
{
    let r = load(
        program, query, cells, heads, rules, order, goal, codes, firsts, nexts, stack, binds, saves,
    );
    match r {
        Inputs::Read {
            definitions,
            rules: a,
            variables,
            goal: b,
            names,
        } => {
            read_behind::clear_behind(
                cells,
                heads,
                rules,
                order,
                goal,
                definitions, // heads in use
                a,
                variables,
                b,
                names,
            );
            Inputs::Read {
                definitions,
                rules: a,
                variables,
                goal: b,
                names,
            }
        }
        Inputs::Refused(x) => {
            read_inputs::clear(cells, heads, rules, order, goal);
            Inputs::Refused(x)
        }
        Inputs::Short => {
            read_inputs::clear(cells, heads, rules, order, goal);
            Inputs::Short
        }
    }
}
