// The rows of a ledger, put into a lent buffer.
#![tactic(auto)]

pub mod inner;
mod words;

// The place after the row, or that there was no room; and whether the line was loaded.
#[derive(Clone, Copy)]
pub struct Row {
    pub placed: Option<usize>,
    pub loaded: bool,
}
