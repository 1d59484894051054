// Where a trace has its entries and the fit its weights, and the phases that the weights go by.
#![tactic(auto)]

pub mod entry;
pub mod inner;
pub mod phase;
pub mod weight;
