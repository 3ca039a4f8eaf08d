// No code: what calls on a store's bytes hand back and leave, and laws.
#![tactic(auto)]
