// Laws only: the marks of a walk over nested boxes, with what was told between them.
#![tactic(auto)]
