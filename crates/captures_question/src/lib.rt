// A question about an exchange (document 02, W-207): what stands after the line of a collection, the move and an order. No doors.
#![tactic(auto)]

pub mod inner;
