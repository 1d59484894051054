// The exact sum of a trace, and what the numbers of a position's trace come to. No code.
#![tactic(auto)]
