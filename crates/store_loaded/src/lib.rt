// No code: what the reader of texts leaves makes the state at the start.
#![tactic(auto)]
