// A text's bytes tested, its parts, and two texts compared: what a line is taken apart with.
#![tactic(auto)]

pub mod inner;
