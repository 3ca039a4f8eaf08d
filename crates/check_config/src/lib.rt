// Whether words are those of a configuration whose statements pass, by the tables of the working slice.
#![tactic(auto)]

ghost use Rattle.mem_words.specs.Words.{words};
ghost use Rattle.check_config.specs.Checking.{CanCheck, Checked};

use check_shapes::Frame;

// Whether the words `b` are a configuration whose statements pass, in the names of the table of kinds, `m` of them, and beside the
// definitions of the table of arities.
pub fn config(w: &mut [u8], b: &[u8], m: usize) -> bool
    requires { CanCheck w.old m (words b.now) }
    ensures { Checked w.old m (words b.now) w.new result }
{
    check_run::run(w, b, m, true, Frame::Root)
}
