// No code: a law of constraints that have no bound variable left free.
#![tactic(auto)]
