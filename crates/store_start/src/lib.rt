// No code: the state at the start of a query.
#![tactic(auto)]
