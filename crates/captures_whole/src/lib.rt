// The rows of a whole input of questions, however it is cut into calls. No code.
#![tactic(auto)]
