// Rule 5 on lent words.
#![tactic(auto)]

ghost use Rattle.std.specs.Prelude.{◌≡◌, ◌+◌, ◌≤◌, length};
ghost use Rattle.mem_words.specs.Words.{words};
ghost use Rattle.rule_build.specs.Built.{Built};
ghost use Rattle.rule_effects.specs.Effects.{box_of_sort, box_of, fresh_5, effect_5};

use mem_sorts::{Kind, Sort};
use mem_words::Word;

fn box_sort(s: Sort) -> Kind
    ensures { result ≡ box_of_sort s }
{
    match s {
        Sort::Locals => Kind::Wait,
        Sort::Store => Kind::Wait,
        Sort::True => Kind::Wait,
        Sort::Fail => Kind::Wait,
        Sort::Eq => Kind::Wait,
        Sort::App => Kind::Wait,
        Sort::Call => Kind::Wait,
        Sort::Comp => Kind::Wait,
        Sort::Hide => Kind::Wait,
        Sort::Clause => Kind::Wait,
        Sort::AskWait => Kind::Wait,
        Sort::AskCond => Kind::Cond,
        Sort::AskCommit => Kind::Commit,
    }
}

// What opens the choice-box of a choice that begins with a word.
fn box_word(w: Word) -> Kind
    ensures { result ≡ box_of w }
{
    match w {
        Word::End => Kind::Wait,
        Word::Free(_) => Kind::Wait,
        Word::Level(_) => Kind::Wait,
        Word::Num(_) => Kind::Wait,
        Word::Place(_) => Kind::Wait,
        Word::Inner(s) => box_sort(s),
        Word::Bad => Kind::Wait,
    }
}

// Rule 5 at the member at `i`: it becomes a choice-box, each clause with fresh variables, from `next` on.
pub fn choose(ws: &[u8], i: usize, next: usize, out: &mut [u8]) -> usize
    requires { (i ≤ length (words ws.now)) × (next + fresh_5 (words ws.now) i ≤ 65536) }
    ensures { Built (length (words out.old)) (effect_5 (words ws.now) i next) result (words out.new) }
{
    let c = mem_words::count(ws);
    let w = rule_read::word_at(ws, i + 1);
    let d = box_word(w);
    let z = rule_close::end_of(ws, i + 1);
    let k1 = rule_build::append_range(ws, 0, i, out, 0);
    let k2 = rule_word::append_word(Word::Place(d), out, k1);
    let k3 = rule_clauses::append_clauses(ws, i + 2, next, out, k2);
    rule_build::append_range(ws, z + 1, c, out, k3)
}
