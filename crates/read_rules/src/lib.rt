// A program from bytes: its refusal, or the heads and the words of its definitions.
#![tactic(auto)]

ghost use Rattle.mem_numbers.specs.Numbers.{shorts, triples};
ghost use Rattle.mem_words.specs.Words.{words};
ghost use Rattle.read_programs.specs.Programs.{ProgramTo};
ghost use Rattle.read_lexicon.specs.Lexicon.{Lexicon};

use read_programs::Programmed;
use read_texts::Readable;
use refusals::Refusal;

// Reads a program, and leaves the head of each definition in `heads`.
pub fn program(
    text: &[u8],
    codes: &mut [u8],
    cells: &mut [u8],
    firsts: &mut [u8],
    nexts: &mut [u8],
    stack: &mut [u8],
    n: usize,
    heads: &mut [u8],
    out: &mut [u8],
    binds: &mut [u8],
    saves: &mut [u8],
    order: &mut [u8],
) -> Programmed
    requires { Lexicon (triples cells.old) (shorts firsts.old) (shorts nexts.old) n }
    ensures { ProgramTo text.now (triples codes.old) (triples cells.old) (shorts firsts.old) (shorts nexts.old) stack.old n (triples heads.old) (words out.old) (shorts binds.old) (shorts saves.old) (shorts order.old) (triples cells.new) (shorts firsts.new) (shorts nexts.new) (triples heads.new) (words out.new) result }
{
    let r = read_programtext::program_text(text, codes, cells, firsts, nexts, stack, n);
    match r {
        Readable::Yes { tokens, names } => {
            if mem_numbers::count::<2>(binds) < names {
                return Programmed::Short;
            }
            if mem_numbers::count::<2>(order) < 16 {
                return Programmed::Short;
            }
            let e = 3 * tokens;
            let b = 2 * names;
            read_programs::checked(
                &codes[..e],
                stack,
                heads,
                out,
                &mut binds[..b],
                saves,
                order,
                names,
            )
        }
        Readable::Long => Programmed::Refused(Refusal::TooLong),
        Readable::Odd => Programmed::Refused(Refusal::NotOfGrammar),
        Readable::Short => Programmed::Short,
    }
}
