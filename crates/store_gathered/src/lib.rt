// For every way a store is cut, the summary that is gathered is the one worked out afresh, up to the first record that is refused. No code.
#![tactic(auto)]
