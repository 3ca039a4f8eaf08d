// No code: the lengths of the slices that a call is lent.
#![tactic(auto)]
