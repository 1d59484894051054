// The rest of a position field: castling rights, the en passant square, the counters. No doors.
#![tactic(auto)]

mod counters;
pub mod inner;
mod rights;
mod words;
