// No code: how many words the program of a text has.
#![tactic(auto)]
