// Whether a rule applies at a place: what the shape of the configuration leaves open, the solver is asked.
#![tactic(auto)]

ghost use Rattle.mem_words.specs.Words.{words};
ghost use Rattle.rule_solve.specs.Idle.{Idle};
ghost use Rattle.step_meant.specs.Asked.{Applies, CanApply};

use rule_applies::Asks;

// Whether the rule of number `r` applies at the place at `i` of the configuration in `t`, whose program is in `d`. A program atom of
// a well-formed configuration is defined, so that nothing is read of the program.
pub fn applies(t: &[u8], d: &[u8], w: &mut [u8], r: usize, i: usize) -> bool
    requires { Idle w.old × CanApply (words t.now) (words d.now) r i }
    ensures { Applies (words t.now) (words d.now) r i result × Idle w.new }
{
    let a = rule_applies::asks_at(t, r, i);
    match a {
        Asks::Never => false,
        Asks::Always => true,
        Asks::Quiet(g) => rule_solve::quiet_at(t, w, g, g),
        Asks::Satisfiable(g) => {
            if rule_solve::sat_at(t, w, g) {
                return false; // a solution
            }
            true
        }
    }
}
