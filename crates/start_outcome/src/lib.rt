// No code: what a start hands back, and the store that it leaves.
#![tactic(auto)]
