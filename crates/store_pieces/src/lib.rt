// No code: what stands in the bytes of a store.
#![tactic(auto)]
