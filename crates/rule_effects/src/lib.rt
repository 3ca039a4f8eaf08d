// No code: the effects of rules as edits of words, and laws.
#![tactic(auto)]
