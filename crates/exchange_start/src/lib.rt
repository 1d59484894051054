// Which captures an exchange may start with: MOVE and CROWD; and the modes of an exchange. No doors.
#![tactic(auto)]

pub mod inner;

// Document 01's exchange; and W-213's, where a pawn may take en passant first, and one that captures onto the last rank counts as a queen.
#[derive(Clone, Copy)]
pub enum Mode {
    First,
    Second,
}
