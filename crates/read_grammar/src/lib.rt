// Where a definition ends in a table of tokens, if it is of the grammar. The stack is for the brackets that are open in its body.
#![tactic(auto)]

ghost use Rattle.mem_numbers.specs.Numbers.{triples};
ghost use Rattle.read_phrases.specs.Codes.{Known};
ghost use Rattle.read_grammar.specs.Grammar.{DefinitionTo};

use read_phrases::Phrase;
use read_statements::Unparsed;

// Where the definition that begins at `at` ends. The names `true` and `fail` have the numbers 4 and 8.
pub fn definition_end(codes: &[u8], stack: &mut [u8], at: usize) -> Result<usize, Unparsed>
    requires { Known (triples codes.now) }
    ensures { DefinitionTo (triples codes.now) stack.old at result }
{
    if read_phrases::kind_at(codes, at) != 0 {
        return Err(Unparsed::Odd);
    }
    let name = read_phrases::number_at(codes, at);
    if name == 4 {
        return Err(Unparsed::Odd);
    }
    if name == 8 {
        return Err(Unparsed::Odd);
    }
    let p = read_ends::arguments_end(codes, at + 1);
    match p {
        Phrase::To {
            rest,
            count: _count,
        } => {
            if read_phrases::kind_at(codes, rest) != 8 {
                return Err(Unparsed::Odd);
            }
            let end = read_statements::statement_end(codes, stack, rest + 1)?;
            if read_phrases::kind_at(codes, end) != 6 {
                return Err(Unparsed::Odd);
            }
            Ok(end + 1)
        }
        Phrase::Odd => Err(Unparsed::Odd),
    }
}
