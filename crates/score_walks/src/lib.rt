// The pieces of one board, walked: what they weigh, and how many squares they attack.
#![tactic(auto)]

pub mod inner;

// The squares that the pieces attack, and the words of their square weights, added.
#[derive(Clone, Copy)]
pub struct Walked {
    pub attacked: u32,
    pub words: u64,
}
