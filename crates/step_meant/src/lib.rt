// What is handed back by the functions of a step, said of every state that the words mean. No code.
#![tactic(auto)]
