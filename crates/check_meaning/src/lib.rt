// Laws alone: what the machine of check_shapes passes is words of a program or of a configuration that passes, and all of them.
#![tactic(auto)]
