// No code: what has to be checked of a store's bytes, and that it is refusal 9.
#![tactic(auto)]
