// No code: the tables of the working slice say what the names and definitions of a store are.
#![tactic(auto)]
