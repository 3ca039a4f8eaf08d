// Laws only: what was told from the log's first words stays told when words are appended.
#![tactic(auto)]
