// No code: what the bytes of a store hold, and laws.
#![tactic(auto)]
