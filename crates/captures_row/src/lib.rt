// The rows that answer a question about an exchange (document 02, W-207), put into a lent buffer. No doors.
#![tactic(auto)]

pub mod inner;
mod words;
