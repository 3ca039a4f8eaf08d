// The tests of variables in the words of a configuration: definitions and laws alone, no code.
#![tactic(auto)]
