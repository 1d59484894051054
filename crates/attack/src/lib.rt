// What a piece attacks, as attack.rs has it: the door.
#![tactic(auto)]

ghost use Rattle.std.specs.Prelude.{◌≡◌};
ghost use Rattle.attack.specs.PrivateLent.{pawn_row, step_row};
ghost use Rattle.attack.specs.Promises.{PieceAttacks};

use attack_steps::inner::{BLACK_PAWN_ROW, KING_ROW, KNIGHT_ROW, WHITE_PAWN_ROW};
use chess::color::WHITE;
use chess::kind::{KING, KNIGHT, PAWN};
use refusal::Refusal;

pub mod inner;

fn pawn_row(color: u8) -> usize
    ensures { result ≡ pawn_row color }
{
    if color == WHITE {
        return WHITE_PAWN_ROW;
    }
    BLACK_PAWN_ROW
}

// The row of a kind in the step tables; past the four for a kind that takes no steps.
fn row(kind: u8, color: u8) -> usize
    ensures { result ≡ step_row kind color }
{
    match kind {
        PAWN => pawn_row(color),
        KNIGHT => KNIGHT_ROW,
        KING => KING_ROW,
        _ => 4,
    }
}

// The squares that a piece attacks, as a bitboard: SHAPE, SQUARE.
pub fn piece_attacks(piece: u8, square: u8, occupied: u64) -> Result<u64, Refusal>
    ensures { PieceAttacks piece square occupied result }
{
    if piece < chess::piece::FIRST {
        return Err(Refusal::Shape);
    }
    if piece > chess::piece::LAST {
        return Err(Refusal::Shape);
    }
    if square > chess::square::LAST {
        return Err(Refusal::Square);
    }
    Ok(inner::attacks_from(chess::inner::kind(piece), piece % 2, square, occupied))
}
