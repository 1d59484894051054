// No position from real play is refused as CROWD. No code.
#![tactic(auto)]
