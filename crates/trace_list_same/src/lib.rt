// What is claimed of a trace's list: there and back, the same bits, demand 3. No code.
#![tactic(auto)]
