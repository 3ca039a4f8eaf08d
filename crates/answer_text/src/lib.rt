// The text of an answer by the solver's tables: definitions and laws. No code.
#![tactic(auto)]
