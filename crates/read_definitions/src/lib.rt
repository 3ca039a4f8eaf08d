// One definition of a program, checked and written as words.
#![tactic(auto)]

ghost use Rattle.mem_numbers.specs.Numbers.{shorts, triples};
ghost use Rattle.mem_words.specs.Words.{words};
ghost use Rattle.read_phrases.specs.Codes.{Known};
ghost use Rattle.read_pieces.specs.Reads.{CanRead};
ghost use Rattle.read_definitions.specs.Definitions.{OpeningTo, Defines};

use mem_words::Word;
use read_phrases::Phrase;
use read_pieces::Read;

// What stands before a definition's body: its name and parameters, and where the body begins; or there are too many parameters;
// or there is no definition.
#[derive(Clone, Copy)]
enum Opening {
    To {
        name: usize,
        count: usize,
        body: usize,
    },
    Many,
    Odd,
}

// The head of the definition that begins at `at`, and its `:=`. The names `true` and `fail` have the numbers 4 and 8.
fn before_body(codes: &[u8], at: usize) -> Opening
    requires { Known (triples codes.now) }
    ensures { OpeningTo (triples codes.now) at result }
{
    if read_phrases::kind_at(codes, at) != 0 {
        return Opening::Odd;
    }
    let name = read_phrases::number_at(codes, at);
    if name == 4 {
        return Opening::Odd;
    }
    if name == 8 {
        return Opening::Odd;
    }
    let p = read_ends::arguments_end(codes, at + 1);
    match p {
        Phrase::To { rest, count } => {
            if 8 < count {
                return Opening::Many;
            }
            if read_phrases::kind_at(codes, rest) != 8 {
                return Opening::Odd;
            }
            Opening::To {
                name,
                count,
                body: rest + 1,
            }
        }
        Phrase::Odd => Opening::Odd,
    }
}

// Reads the definition that begins at `at`, its parameters bound in its body, and writes its words from `k` on.
pub fn definition(
    codes: &[u8],
    heads: &[u8],
    out: &mut [u8],
    binds: &mut [u8],
    saves: &mut [u8],
    order: &mut [u8],
    at: usize,
    k: usize,
) -> Read
    requires { CanRead (triples codes.now) (shorts binds.old) (shorts saves.old) (shorts order.old) (triples heads.now) (words out.old) at k 0 0 }
    ensures { Defines (triples codes.now) (shorts binds.old) (shorts saves.old) (shorts order.old) (triples heads.now) (words out.old) at k (shorts binds.new) (shorts saves.new) (shorts order.new) (words out.new) result }
{
    let h = before_body(codes, at);
    match h {
        Opening::To { name, count, body } => {
            if !read_emits::emit(out, k, Word::Num(name)) {
                return Read::Full;
            }
            if !read_emits::emit(out, k + 1, Word::Num(count)) {
                return Read::Full;
            }
            let g = read_operators::twice(read_scopes::bind(
                codes,
                at + 2,
                count,
                binds,
                saves,
                0,
                0,
            ));
            if g == 0 {
                return Read::Full;
            }
            let s = read_nested::statement(
                codes,
                heads,
                false,
                out,
                binds,
                saves,
                order,
                body,
                k + 2,
                0,
                count,
                0,
            );
            match s {
                Read::Done {
                    at: a,
                    out: o,
                    known: _known,
                    fault,
                } => {
                    if read_phrases::kind_at(codes, a) != 6 {
                        return Read::Odd;
                    }
                    read_scopes::unbind(codes, at + 2, count, binds, saves, 0);
                    let low = read_pieces::lower(g, fault);
                    Read::Done {
                        at: a + 1,
                        out: o,
                        known: 0,
                        fault: low,
                    }
                }
                Read::Three => Read::Three,
                Read::Odd => Read::Odd,
                Read::Full => Read::Full,
            }
        }
        Opening::Many => Read::Three,
        Opening::Odd => Read::Odd,
    }
}
