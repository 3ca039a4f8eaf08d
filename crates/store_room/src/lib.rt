// No code: laws on the room that the stores of a well-formed configuration need.
#![tactic(auto)]
