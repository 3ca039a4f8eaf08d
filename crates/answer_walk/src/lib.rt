// The traversal that writes the text of an answer, over lists: definitions and laws. No code.
#![tactic(auto)]
