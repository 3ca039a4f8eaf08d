// The stores of the and-boxes around a position: definitions, and laws that they are a place's environment. No code.
#![tactic(auto)]
