// No code: brackets and pieces of lists of words, and laws.
#![tactic(auto)]
