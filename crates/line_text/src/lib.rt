// The text of a board and of a line, and that equal positions have equal placement text: definitions and laws. No code.
#![tactic(auto)]
