// The heads of a program's definitions, found in its words and marked in the table of arities.
#![tactic(auto)]

ghost use Rattle.mem_words.specs.Words.{words};
ghost use Rattle.check_heads.specs.Filling.{CanFill, CanMark, Filled};

use mem_words::Word;

// Marks the heads of the words `b`, in a table without definitions. False if one does not pass.
fn each(w: &mut [u8], b: &[u8], m: usize) -> bool
    requires { CanMark w.old m (words b.now) }
    ensures { Filled w.old m (words b.now) w.new result }
{
    let n = mem_words::count(b);
    let mut c = 0;
    // the number that the word before was, if it was one
    let mut name: Option<usize> = None;
    for i in 0..n {
        match mem_get::get(b, i) {
            Word::Num(k) => {
                if let Some(p) = name {
                    if !check_defines::define(w, m, p, k, c) {
                        return false;
                    }
                    c += 1;
                }
                name = Some(k);
            }
            _ => {
                name = None;
            }
        }
    }
    true
}

// The same, the table being made anew.
pub fn fill(w: &mut [u8], b: &[u8], m: usize) -> bool
    requires { CanFill w.old m (words b.now) }
    ensures { Filled w.old m (words b.now) w.new result }
{
    mem_parts::zero(w, 20992, 61970);
    each(w, b, m)
}
