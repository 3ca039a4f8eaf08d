// Applications in argument-first order: definitions and laws. No code.
#![tactic(auto)]
