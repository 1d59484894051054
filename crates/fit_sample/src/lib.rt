// The sample of a position for a fit: its list, its counts and the half points as 300 bytes.
#![tactic(auto)]

pub mod inner;

// The bytes of a sample.
pub const SAMPLE: usize = 300;
