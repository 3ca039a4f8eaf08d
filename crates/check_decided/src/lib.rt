// No code: refusal 9 put together from what code decides.
#![tactic(auto)]
