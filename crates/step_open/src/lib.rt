// Laws only: the brackets that are open at a position of a goal, from one word to the next.
#![tactic(auto)]
