// The score's arithmetic: what a side brings, and the sum of both. Wider than the original's 16 bits, and tested where 01 says.
#![tactic(auto)]

pub mod inner;

// What the right to move is worth.
pub const TEMPO: u32 = 11;

// What a side brings to the score: its square weights of the opening and of the ending, its material, and its mobility in tenths.
#[derive(Clone, Copy)]
pub struct Side {
    pub opening: i32,
    pub ending: i32,
    pub material: u32,
    pub mobility: u32,
}
