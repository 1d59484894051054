// A whole collection sifted, however it is cut: a claim, and no code.
#![tactic(auto)]
