// From an empty store, over any calls, the summary is the one worked out afresh, and its pieces are those of the records. No code.
#![tactic(auto)]
