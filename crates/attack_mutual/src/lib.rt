// A square attacks another as it is attacked by it: laws. No code.
#![tactic(auto)]
