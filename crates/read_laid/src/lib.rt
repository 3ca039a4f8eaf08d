// The words of constraint atoms and program atoms, part by part.
#![tactic(auto)]

ghost use Rattle.std.specs.Prelude.{◌≡◌, [], ◌∷◌, ◌+◌, ◌<◌, length};
ghost use Rattle.mem_numbers.specs.Numbers.{shorts, triples};
ghost use Rattle.mem_words.specs.Words.{words};
ghost use Rattle.read_lookups.specs.Places.{ids};
ghost use Rattle.read_laid.specs.Parts.{Tables, Inside, Parted};
ghost use Rattle.read_laid.specs.Shapes.{bare_lay, lead_lay, last_lay, tail_lay, labelled_lay, same_lay, made_lay, call_lay, con_lay, vars_of, size_of, or_vars, CanConstraint};

use mem_sorts::Sort;
use mem_words::Word;
use read_phrases::Constraint;
use read_varwords::{Unwritten, Vars};

// The two words of a constraint without variables.
fn bare(
    sort: Sort,
    out: &mut [u8],
    k: usize,
    binds: &[u8],
    order: &mut [u8],
    q: usize,
    query: bool,
) -> Result<Vars, Unwritten>
    requires { Tables (shorts binds.now) (shorts order.old) (words out.old) k q }
    ensures { Parted 2 [] (bare_lay sort) (words out.old) k (shorts binds.now) (shorts order.old) q query (words out.new) (shorts order.new) result }
{
    if !read_emits::emit(out, k, Word::Inner(sort)) {
        return Err(Unwritten::Full);
    }
    if !read_emits::emit(out, k + 1, Word::End) {
        return Err(Unwritten::Full);
    }
    Ok(Vars {
        out: k + 2,
        known: q,
        free: false,
    })
}

// A first word, and that of a variable.
fn lead(
    sort: Sort,
    id: usize,
    out: &mut [u8],
    k: usize,
    binds: &[u8],
    order: &mut [u8],
    q: usize,
    query: bool,
) -> Result<Vars, Unwritten>
    requires { Tables (shorts binds.now) (shorts order.old) (words out.old) k q × (id < length (shorts binds.now)) }
    ensures { Parted 2 (id ∷ []) (lead_lay sort id) (words out.old) k (shorts binds.now) (shorts order.old) q query (words out.new) (shorts order.new) result }
{
    if !read_emits::emit(out, k, Word::Inner(sort)) {
        return Err(Unwritten::Full);
    }
    read_varwords::variable(id, out, k + 1, binds, order, q, query)
}

// The word of a last variable, and the end.
fn last(
    id: usize,
    out: &mut [u8],
    k: usize,
    binds: &[u8],
    order: &mut [u8],
    q: usize,
    query: bool,
) -> Result<Vars, Unwritten>
    requires { Tables (shorts binds.now) (shorts order.old) (words out.old) k q × (id < length (shorts binds.now)) }
    ensures { Parted 2 (id ∷ []) (last_lay id) (words out.old) k (shorts binds.now) (shorts order.old) q query (words out.new) (shorts order.new) result }
{
    let v = read_varwords::variable(id, out, k, binds, order, q, query)?;
    if !read_emits::emit(out, v.out, Word::End) {
        return Err(Unwritten::Full);
    }
    Ok(Vars {
        out: v.out + 1,
        ..v
    })
}

// The words of arguments, and the end.
fn tail(
    codes: &[u8],
    first: usize,
    count: usize,
    out: &mut [u8],
    k: usize,
    binds: &[u8],
    order: &mut [u8],
    q: usize,
    query: bool,
) -> Result<Vars, Unwritten>
    requires { Tables (shorts binds.now) (shorts order.old) (words out.old) k q × Inside (triples codes.now) (shorts binds.now) first count }
    ensures { Parted (count + 1) (ids (triples codes.now) count first) (tail_lay (ids (triples codes.now) count first)) (words out.old) k (shorts binds.now) (shorts order.old) q query (words out.new) (shorts order.new) result }
{
    let v = read_varlists::variables(codes, first, count, out, k, binds, order, q, query)?;
    if !read_emits::emit(out, v.out, Word::End) {
        return Err(Unwritten::Full);
    }
    Ok(Vars {
        out: v.out + 1,
        ..v
    })
}

// The number of a label or of a predicate's name, and the words of its arguments.
fn labelled(
    codes: &[u8],
    label: usize,
    first: usize,
    count: usize,
    out: &mut [u8],
    k: usize,
    binds: &[u8],
    order: &mut [u8],
    q: usize,
    query: bool,
) -> Result<Vars, Unwritten>
    requires { Tables (shorts binds.now) (shorts order.old) (words out.old) k q × (label < length (shorts binds.now)) × Inside (triples codes.now) (shorts binds.now) first count }
    ensures { Parted (count + 2) (ids (triples codes.now) count first) (labelled_lay label (ids (triples codes.now) count first)) (words out.old) k (shorts binds.now) (shorts order.old) q query (words out.new) (shorts order.new) result }
{
    if !read_emits::emit(out, k, Word::Num(label)) {
        return Err(Unwritten::Full);
    }
    tail(codes, first, count, out, k + 1, binds, order, q, query)
}

// The words of a program atom.
pub fn called(
    codes: &[u8],
    name: usize,
    first: usize,
    count: usize,
    out: &mut [u8],
    k: usize,
    binds: &[u8],
    order: &mut [u8],
    q: usize,
    query: bool,
) -> Result<Vars, Unwritten>
    requires { Tables (shorts binds.now) (shorts order.old) (words out.old) k q × (name < length (shorts binds.now)) × Inside (triples codes.now) (shorts binds.now) first count }
    ensures { Parted (count + 3) (ids (triples codes.now) count first) (call_lay name (ids (triples codes.now) count first)) (words out.old) k (shorts binds.now) (shorts order.old) q query (words out.new) (shorts order.new) result }
{
    if !read_emits::emit(out, k, Word::Inner(Sort::Call)) {
        return Err(Unwritten::Full);
    }
    labelled(
        codes,
        name,
        first,
        count,
        out,
        k + 1,
        binds,
        order,
        q,
        query,
    )
}

// An answer, and whether a variable before it was not bound.
fn either(z: Result<Vars, Unwritten>, any: bool) -> Result<Vars, Unwritten>
    ensures { result ≡ or_vars any z }
{
    let v = z?;
    Ok(Vars {
        free: any | v.free,
        ..v
    })
}

// The words of an equation of two variables.
fn same(
    left: usize,
    right: usize,
    out: &mut [u8],
    k: usize,
    binds: &[u8],
    order: &mut [u8],
    q: usize,
    query: bool,
) -> Result<Vars, Unwritten>
    requires { Tables (shorts binds.now) (shorts order.old) (words out.old) k q × (left < length (shorts binds.now)) × (right < length (shorts binds.now)) }
    ensures { Parted 4 (left ∷ right ∷ []) (same_lay left right) (words out.old) k (shorts binds.now) (shorts order.old) q query (words out.new) (shorts order.new) result }
{
    let v = lead(Sort::Eq, left, out, k, binds, order, q, query)?;
    let z = last(right, out, v.out, binds, order, v.known, query);
    either(z, v.free)
}

// The words of a variable that is an application of a label.
fn made(
    codes: &[u8],
    var: usize,
    label: usize,
    first: usize,
    count: usize,
    out: &mut [u8],
    k: usize,
    binds: &[u8],
    order: &mut [u8],
    q: usize,
    query: bool,
) -> Result<Vars, Unwritten>
    requires { Tables (shorts binds.now) (shorts order.old) (words out.old) k q × (var < length (shorts binds.now)) × (label < length (shorts binds.now)) × Inside (triples codes.now) (shorts binds.now) first count }
    ensures { Parted (count + 4) (var ∷ ids (triples codes.now) count first) (made_lay var label (ids (triples codes.now) count first)) (words out.old) k (shorts binds.now) (shorts order.old) q query (words out.new) (shorts order.new) result }
{
    let v = lead(Sort::App, var, out, k, binds, order, q, query)?;
    let z = labelled(
        codes, label, first, count, out, v.out, binds, order, v.known, query,
    );
    either(z, v.free)
}

// The words of a constraint.
pub fn atom(
    codes: &[u8],
    kind: Constraint,
    out: &mut [u8],
    k: usize,
    binds: &[u8],
    order: &mut [u8],
    q: usize,
    query: bool,
) -> Result<Vars, Unwritten>
    requires { CanConstraint (triples codes.now) (shorts binds.now) (shorts order.old) (words out.old) kind k q }
    ensures { Parted (size_of kind) (vars_of (triples codes.now) kind) (con_lay (triples codes.now) kind) (words out.old) k (shorts binds.now) (shorts order.old) q query (words out.new) (shorts order.new) result }
{
    match kind {
        Constraint::True => bare(Sort::True, out, k, binds, order, q, query),
        Constraint::Fail => bare(Sort::Fail, out, k, binds, order, q, query),
        Constraint::Same { left, right } => same(left, right, out, k, binds, order, q, query),
        Constraint::Made {
            var,
            label,
            first,
            count,
        } => {
            made(
                codes, var, label, first, count, out, k, binds, order, q, query,
            )
        }
    }
}
