// No code: the record as the program `runcheck` writes it, piece by piece, is the record of the definitions.
#![tactic(auto)]
