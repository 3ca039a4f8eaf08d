// No code: the tables in the working slice that the checks of the table of names use.
#![tactic(auto)]
