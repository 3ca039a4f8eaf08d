// Laws only: a goal that stands in the words of a state can be walked over, and calm and-boxes are those without unrest.
#![tactic(auto)]
