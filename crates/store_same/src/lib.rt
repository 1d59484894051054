// What is claimed of a store's records: there and back, one for each position and result. No code.
#![tactic(auto)]
