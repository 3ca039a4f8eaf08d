// Whether a table of tokens is a query or a program.
#![tactic(auto)]

ghost use Rattle.mem_numbers.specs.Numbers.{triples};
ghost use Rattle.read_phrases.specs.Codes.{Known};
ghost use Rattle.read_grammar.specs.Grammar.{QueryIs, ProgramIs};

use read_statements::Unparsed;

// Whether the whole table is a query: a statement and a full stop.
pub fn query_is(codes: &[u8], stack: &mut [u8]) -> Result<(), Unparsed>
    requires { Known (triples codes.now) }
    ensures { QueryIs (triples codes.now) stack.old result }
{
    let rest = read_statements::statement_end(codes, stack, 0)?;
    if read_phrases::kind_at(codes, rest) != 6 {
        return Err(Unparsed::Odd);
    }
    if rest + 1 < mem_numbers::count::<3>(codes) {
        return Err(Unparsed::Odd);
    }
    Ok(())
}

// Whether the whole table is a program: zero or more definitions.
pub fn program_is(codes: &[u8], stack: &mut [u8]) -> Result<(), Unparsed>
    requires { Known (triples codes.now) }
    ensures { ProgramIs (triples codes.now) stack.old result }
{
    let n = mem_numbers::count::<3>(codes);
    let mut i = 0;
    while i < n {
        let rest = read_grammar::definition_end(codes, stack, i)?;
        i = rest;
    }
    Ok(())
}
