// Doubles as the definitions have them: IEEE 754's operations and the constants. No code.
#![tactic(auto)]
