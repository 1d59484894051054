// A position: 14 bitboards, 64 board bytes, and a state by value. The test that every call on one begins with.
#![tactic(auto)]

ghost use Rattle.position.specs.Promises.{OfSide, Checks};

use chess::color::Color;
use chess::inner::index;
use chess::piece::Piece;
use chess::square::Square;
use position_further::Rights;
use position_further::inner::{at_home, counters_fit, just_passed};
use refusal::Refusal;

// The part of a position that goes by value.
#[derive(Clone, Copy)]
pub struct State {
    // The colour to move.
    pub side: u8,
    // Who may still castle, and the en passant square.
    pub rights: Rights,
    pub passant: Option<u8>,
    // Half moves since a capture or a pawn's move, and the number of the move.
    pub halfmoves: u16,
    pub moves: u16,
}

// A side to move, and nothing else given: no rights, no square, counters 0 and 1.
pub fn of_side(side: u8) -> State
    ensures { OfSide side result }
{
    let rights = Rights {
        white_short: false,
        white_long: false,
        black_short: false,
        black_long: false,
    };
    let passant = None;
    State {
        side,
        rights,
        passant,
        halfmoves: 0,
        moves: 1,
    }
}

// SHAPE, then OVERLAP, UNION, BYTEBOARD, then RIGHTS, PASSANT, COUNTER: the test that every call on a position begins with. Which of the pieces are at
// odds, and at which square, is looked for after a no alone: a consistent position pays nothing for it.
pub fn check(bitboards: &[u64], board: &[u8], state: State) -> Result<(), Refusal>
    ensures { Checks bitboards.now board.now state result }
{
    if bitboards.len() != Piece::BOARDS {
        return Err(Refusal::Shape);
    }
    if board.len() != Square::COUNT {
        return Err(Refusal::Shape);
    }
    if index(state.side) >= Color::COUNT {
        return Err(Refusal::Shape);
    }
    if !position_consistent::fits(bitboards, board) {
        return Err(position_odds::at_odds(bitboards, board));
    }
    if !at_home(board, state.rights) {
        return Err(Refusal::Rights);
    }
    let passant = state.passant;
    if !just_passed(board, state.side, passant) {
        return Err(Refusal::Passant);
    }
    if !counters_fit(state.halfmoves, state.moves) {
        return Err(Refusal::Counter);
    }
    Ok(())
}
