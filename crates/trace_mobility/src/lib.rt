// How many squares the pieces of a kind and a colour attack, for a trace's mobility: those that step are counted all at once.
#![tactic(auto)]

pub mod inner;
