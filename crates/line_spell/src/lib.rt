// The text of a position and of its line, put into a lent buffer at a place.
#![tactic(auto)]

pub mod inner;
mod spell;
