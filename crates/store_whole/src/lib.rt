// The rows of a whole store, however it is cut into calls, and that a store of loaded lines has their ledger. No code.
#![tactic(auto)]
