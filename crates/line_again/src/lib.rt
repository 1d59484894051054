// What is claimed of the writer and the reader together: what was written is read again, and comes back as the same bytes. Definitions and laws. No code.
#![tactic(auto)]
