// No code: the state after a step, and laws.
#![tactic(auto)]
