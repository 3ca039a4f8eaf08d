// No code: the words of configurations, and laws.
#![tactic(auto)]
