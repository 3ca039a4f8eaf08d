// Laws only: demand 3 as one claim on lists of the calls that a host makes.
#![tactic(auto)]
