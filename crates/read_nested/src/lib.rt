// Statements read from a table of tokens and written as words: statement, bracket and clause call each other, with the
// remaining tokens falling, and no deeper than brackets may nest. A text is known to be of the grammar before it is read
// (crate grammar), so that brackets too deep, too many arguments or too many query variables end the reading at once: no
// lower refusal can be due.
#![tactic(auto)]

ghost use Rattle.mem_numbers.specs.Numbers.{shorts, triples};
ghost use Rattle.mem_words.specs.Words.{words};
ghost use Rattle.read_phrases.specs.Codes.{op_of};
ghost use Rattle.read_pieces.specs.Reads.{a_statement, a_simple, a_bracket, a_clause, some_others, CanRead};
ghost use Rattle.read_nested.specs.Answers.{Answer, CanClause};

use mem_sorts::Sort;
use mem_words::Word;
use read_emits::Emitted;
use read_phrases::{Phrase, Simple};
use read_pieces::Read;

// Simple statements joined by commas. Before each is a slot for the composition that a comma behind it makes.
#[cycle(bracket_clause_others_simple_statement)]
pub fn statement(
    codes: &[u8],
    heads: &[u8],
    query: bool,
    out: &mut [u8],
    binds: &mut [u8],
    saves: &mut [u8],
    order: &mut [u8],
    at: usize,
    k: usize,
    q: usize,
    level: usize,
    depth: usize,
) -> Read
    requires { CanRead (triples codes.now) (shorts binds.old) (shorts saves.old) (shorts order.old) (triples heads.now) (words out.old) at k q level }
    ensures { Answer a_statement query (triples codes.now) (shorts binds.old) (shorts saves.old) (shorts order.old) (triples heads.now) (words out.old) at k q level depth (shorts binds.new) (shorts saves.new) (shorts order.new) (words out.new) result }
{
    let mut i = at;
    let mut j = k;
    let mut p = q;
    let mut f = 8;
    let mut c = 0;
    loop {
        if !read_emits::emit(out, j, Word::Bad) {
            return Read::Full;
        }
        let s = simple(
            codes,
            heads,
            query,
            out,
            binds,
            saves,
            order,
            i,
            j + 1,
            p,
            level,
            depth,
        );
        match s {
            Read::Done {
                at: a,
                out: o,
                known,
                fault,
            } => {
                let low = read_pieces::lower(f, fault);
                if read_phrases::kind_at(codes, a) != 5 {
                    let e = read_emits::ends(out, o, c);
                    match e {
                        Emitted::To(z) => {
                            return Read::Done {
                                at: a,
                                out: z,
                                known,
                                fault: low,
                            };
                        }
                        Emitted::Full => {
                            return Read::Full;
                        }
                    }
                }
                mem_put::put(out, j, Word::Inner(Sort::Comp));
                i = a + 1;
                j = o;
                p = known;
                f = low;
                c += 1;
            }
            Read::Three => {
                return Read::Three;
            }
            Read::Odd => {
                return Read::Odd;
            }
            Read::Full => {
                return Read::Full;
            }
        }
    }
}

// A simple statement: an atom, or a bracket, which may not stand in 32 others.
#[cycle(bracket_clause_others_simple_statement)]
fn simple(
    codes: &[u8],
    heads: &[u8],
    query: bool,
    out: &mut [u8],
    binds: &mut [u8],
    saves: &mut [u8],
    order: &mut [u8],
    at: usize,
    k: usize,
    q: usize,
    level: usize,
    depth: usize,
) -> Read
    requires { CanRead (triples codes.now) (shorts binds.old) (shorts saves.old) (shorts order.old) (triples heads.now) (words out.old) at k q level }
    ensures { Answer a_simple query (triples codes.now) (shorts binds.old) (shorts saves.old) (shorts order.old) (triples heads.now) (words out.old) at k q level depth (shorts binds.new) (shorts saves.new) (shorts order.new) (words out.new) result }
{
    let s = read_simples::simple_at(codes, at);
    match s {
        Simple::Atom { kind, rest } => {
            read_atoms::constraint(codes, query, out, binds, order, kind, rest, k, q)
        }
        Simple::Program {
            name,
            first,
            count,
            rest,
        } => read_atoms::program(
            codes, heads, query, out, binds, order, name, first, count, rest, k, q,
        ),
        Simple::Bracket { inside } => {
            if 32 <= depth {
                return Read::Three;
            }
            let b = bracket(
                codes,
                heads,
                query,
                out,
                binds,
                saves,
                order,
                inside,
                k,
                q,
                level,
                depth + 1,
            );
            match b {
                Read::Done {
                    at: a,
                    out: o,
                    known,
                    fault,
                } => {
                    if read_phrases::kind_at(codes, a) != 4 {
                        return Read::Odd;
                    }
                    Read::Done {
                        at: a + 1,
                        out: o,
                        known,
                        fault,
                    }
                }
                Read::Three => Read::Three,
                Read::Odd => Read::Odd,
                Read::Full => Read::Full,
            }
        }
        Simple::Odd => Read::Odd,
    }
}

// What stands between a bracket's signs: a hidden list or none, a statement, and then an operator or not. Three slots are kept
// for what it turns out to be.
#[cycle(bracket_clause_others_simple_statement)]
fn bracket(
    codes: &[u8],
    heads: &[u8],
    query: bool,
    out: &mut [u8],
    binds: &mut [u8],
    saves: &mut [u8],
    order: &mut [u8],
    at: usize,
    k: usize,
    q: usize,
    level: usize,
    depth: usize,
) -> Read
    requires { CanRead (triples codes.now) (shorts binds.old) (shorts saves.old) (shorts order.old) (triples heads.now) (words out.old) at k q level }
    ensures { Answer a_bracket query (triples codes.now) (shorts binds.old) (shorts saves.old) (shorts order.old) (triples heads.now) (words out.old) at k q level depth (shorts binds.new) (shorts saves.new) (shorts order.new) (words out.new) result }
{
    let p = read_ends::hidden_end(codes, at);
    match p {
        Phrase::To { rest, count } => {
            if !read_slots::slots(out, k) {
                return Read::Full;
            }
            let g = read_operators::twice(read_scopes::bind(
                codes, at, count, binds, saves, level, level,
            ));
            if g == 0 {
                return Read::Full;
            }
            let s = statement(
                codes,
                heads,
                query,
                out,
                binds,
                saves,
                order,
                rest,
                k + 3,
                q,
                level + count,
                depth,
            );
            match s {
                Read::Done {
                    at: a,
                    out: o,
                    known,
                    fault,
                } => {
                    let op = read_phrases::kind_at(codes, a);
                    if !read_operators::operates(op) {
                        read_scopes::unbind(codes, at, count, binds, saves, level);
                        if count == 0 {
                            return Read::Done {
                                at: a,
                                out: o,
                                known,
                                fault,
                            };
                        }
                        read_fills::fill_hide(out, k, count);
                        if !read_emits::emit(out, o, Word::End) {
                            return Read::Full;
                        }
                        let low = read_pieces::lower(g, fault);
                        return Read::Done {
                            at: a,
                            out: o + 1,
                            known,
                            fault: low,
                        };
                    }
                    let t = statement(
                        codes,
                        heads,
                        query,
                        out,
                        binds,
                        saves,
                        order,
                        a + 1,
                        o,
                        known,
                        level + count,
                        depth,
                    );
                    match t {
                        Read::Done {
                            at: b,
                            out: u,
                            known: more,
                            fault: then,
                        } => {
                            if !read_emits::emit(out, u, Word::End) {
                                return Read::Full;
                            }
                            read_scopes::unbind(codes, at, count, binds, saves, level);
                            read_fills::fill_choice(out, k, op, count);
                            let both = read_pieces::lower(fault, then);
                            let own = read_pieces::lower(g, both);
                            let r = others(
                                codes,
                                heads,
                                query,
                                out,
                                binds,
                                saves,
                                order,
                                b,
                                u + 1,
                                more,
                                level,
                                depth,
                                op,
                            );
                            match r {
                                Read::Done {
                                    at: end,
                                    out: w,
                                    known: all,
                                    fault: rest_fault,
                                } => {
                                    if !read_emits::emit(out, w, Word::End) {
                                        return Read::Full;
                                    }
                                    let low = read_pieces::lower(own, rest_fault);
                                    Read::Done {
                                        at: end,
                                        out: w + 1,
                                        known: all,
                                        fault: low,
                                    }
                                }
                                Read::Three => Read::Three,
                                Read::Odd => Read::Odd,
                                Read::Full => Read::Full,
                            }
                        }
                        Read::Three => Read::Three,
                        Read::Odd => Read::Odd,
                        Read::Full => Read::Full,
                    }
                }
                Read::Three => Read::Three,
                Read::Odd => Read::Odd,
                Read::Full => Read::Full,
            }
        }
        Phrase::Odd => Read::Odd,
    }
}

// The other clauses of a choice, each behind a `;`.
#[cycle(bracket_clause_others_simple_statement)]
fn others(
    codes: &[u8],
    heads: &[u8],
    query: bool,
    out: &mut [u8],
    binds: &mut [u8],
    saves: &mut [u8],
    order: &mut [u8],
    at: usize,
    k: usize,
    q: usize,
    level: usize,
    depth: usize,
    kind: usize,
) -> Read
    requires { CanClause (triples codes.now) (shorts binds.old) (shorts saves.old) (shorts order.old) (triples heads.now) (words out.old) at k q level kind }
    ensures { Answer (some_others (op_of kind)) query (triples codes.now) (shorts binds.old) (shorts saves.old) (shorts order.old) (triples heads.now) (words out.old) at k q level depth (shorts binds.new) (shorts saves.new) (shorts order.new) (words out.new) result }
{
    let mut i = at;
    let mut j = k;
    let mut p = q;
    let mut f = 8;
    loop {
        if read_phrases::kind_at(codes, i) != 10 {
            return Read::Done {
                at: i,
                out: j,
                known: p,
                fault: f,
            };
        }
        let c = clause(
            codes,
            heads,
            query,
            out,
            binds,
            saves,
            order,
            i + 1,
            j,
            p,
            level,
            depth,
            kind,
        );
        match c {
            Read::Done {
                at: a,
                out: o,
                known,
                fault,
            } => {
                f = read_pieces::lower(f, fault);
                i = a;
                j = o;
                p = known;
            }
            Read::Three => {
                return Read::Three;
            }
            Read::Odd => {
                return Read::Odd;
            }
            Read::Full => {
                return Read::Full;
            }
        }
    }
}

// A clause behind the first: a hidden list or none, a guard, an operator and a body.
#[cycle(bracket_clause_others_simple_statement)]
fn clause(
    codes: &[u8],
    heads: &[u8],
    query: bool,
    out: &mut [u8],
    binds: &mut [u8],
    saves: &mut [u8],
    order: &mut [u8],
    at: usize,
    k: usize,
    q: usize,
    level: usize,
    depth: usize,
    kind: usize,
) -> Read
    requires { CanClause (triples codes.now) (shorts binds.old) (shorts saves.old) (shorts order.old) (triples heads.now) (words out.old) at k q level kind }
    ensures { Answer (a_clause (op_of kind)) query (triples codes.now) (shorts binds.old) (shorts saves.old) (shorts order.old) (triples heads.now) (words out.old) at k q level depth (shorts binds.new) (shorts saves.new) (shorts order.new) (words out.new) result }
{
    let p = read_ends::hidden_end(codes, at);
    match p {
        Phrase::To { rest, count } => {
            if !read_slots::open_clause(out, k, count) {
                return Read::Full;
            }
            let g = read_operators::twice(read_scopes::bind(
                codes, at, count, binds, saves, level, level,
            ));
            if g == 0 {
                return Read::Full;
            }
            let s = statement(
                codes,
                heads,
                query,
                out,
                binds,
                saves,
                order,
                rest,
                k + 2,
                q,
                level + count,
                depth,
            );
            match s {
                Read::Done {
                    at: a,
                    out: o,
                    known,
                    fault,
                } => {
                    let op = read_phrases::kind_at(codes, a);
                    if !read_operators::operates(op) {
                        return Read::Odd;
                    }
                    let t = statement(
                        codes,
                        heads,
                        query,
                        out,
                        binds,
                        saves,
                        order,
                        a + 1,
                        o,
                        known,
                        level + count,
                        depth,
                    );
                    match t {
                        Read::Done {
                            at: b,
                            out: u,
                            known: more,
                            fault: then,
                        } => {
                            if !read_emits::emit(out, u, Word::End) {
                                return Read::Full;
                            }
                            read_scopes::unbind(codes, at, count, binds, saves, level);
                            let both = read_pieces::lower(fault, then);
                            let own = read_pieces::lower(g, both);
                            let m = read_operators::mixes(op, kind);
                            let low = read_pieces::lower(own, m);
                            Read::Done {
                                at: b,
                                out: u + 1,
                                known: more,
                                fault: low,
                            }
                        }
                        Read::Three => Read::Three,
                        Read::Odd => Read::Odd,
                        Read::Full => Read::Full,
                    }
                }
                Read::Three => Read::Three,
                Read::Odd => Read::Odd,
                Read::Full => Read::Full,
            }
        }
        Phrase::Odd => Read::Odd,
    }
}
