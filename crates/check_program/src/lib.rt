// Whether words are those of a program that passes, by the tables of the working slice.
#![tactic(auto)]

ghost use Rattle.mem_words.specs.Words.{words};
ghost use Rattle.check_heads.specs.Filling.{CanFill};
ghost use Rattle.check_program.specs.Checking.{Checked};

use check_shapes::Frame;

// Whether the words `b` are a program that passes, in the names of the table of kinds, `m` of them. The table of arities is made
// anew, and has its definitions if they are.
pub fn program(w: &mut [u8], b: &[u8], m: usize) -> bool
    requires { CanFill w.old m (words b.now) }
    ensures { Checked w.old m (words b.now) w.new result }
{
    let f = check_heads::fill(w, b, m);
    if !f {
        return false;
    }
    check_run::run(w, b, m, false, Frame::Head)
}
