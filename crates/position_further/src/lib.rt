// What a position says beyond its pieces and its side: castling rights and the en passant square. The tests of them are inner.
#![tactic(auto)]

pub mod inner;

// Who may still castle, and with which rook: the letters K, Q, k and q of a line.
#[derive(Clone, Copy)]
pub struct Rights {
    pub white_short: bool,
    pub white_long: bool,
    pub black_short: bool,
    pub black_long: bool,
}
