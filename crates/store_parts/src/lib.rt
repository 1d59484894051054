// The rows of stores joined, and a collection packed in parts: both are the whole's. No code.
#![tactic(auto)]
