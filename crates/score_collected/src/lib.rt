// The sum over a whole collection, however it is cut into calls. No code.
#![tactic(auto)]
