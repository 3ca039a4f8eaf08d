// No code: what a store holds, said by texts.
#![tactic(auto)]
