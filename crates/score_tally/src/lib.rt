// What both colours bring to the score, as eval.rs has it: square weights, material, mobility.
#![tactic(auto)]

use score_taper::Side;

pub mod inner;

#[derive(Clone, Copy)]
pub struct Sides {
    pub white: Side,
    pub black: Side,
}

// What an attacked square is worth, in tenths.
pub const KNIGHT_MOBILITY: u32 = 24;

pub const BISHOP_MOBILITY: u32 = 47;

pub const ROOK_MOBILITY: u32 = 39;

pub const QUEEN_MOBILITY: u32 = 21;
