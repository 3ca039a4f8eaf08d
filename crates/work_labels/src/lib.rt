// No code: laws on the labels of what is told.
#![tactic(auto)]
