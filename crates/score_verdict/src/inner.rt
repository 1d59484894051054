// The same on any bitboards: total, and no door.
ghost use Rattle.std.specs.Prelude.{◌≡◌};
ghost use Rattle.score_verdict.specs.Verdict.{to_move, heavy as heavyOf};
ghost use Rattle.score_verdict.specs.Promises.{Ends};

use crate::Verdict;
use attack::inner::occupied;
use chess::color::{BLACK, WHITE};
use chess::kind::{KING, PAWN, QUEEN, ROOK};
use score_material::inner::number;

// The side to move as a colour: any number but White's counts as Black's.
fn to_move(side: u8) -> u8
    ensures { result ≡ to_move side }
{
    if side == WHITE {
        return WHITE;
    }
    BLACK
}

// How many pawns, rooks and queens there are.
fn heavy(bitboards: &[u64]) -> u32
    ensures { result ≡ heavyOf bitboards.now }
{
    let pawns = number(bitboards, PAWN, WHITE) + number(bitboards, PAWN, BLACK);
    let rooks = number(bitboards, ROOK, WHITE) + number(bitboards, ROOK, BLACK);
    let queens = number(bitboards, QUEEN, WHITE) + number(bitboards, QUEEN, BLACK);
    pawns + rooks + queens
}

// Verdicts: fewer than two kings in all, or fewer than four pieces and only kings, knights and bishops.
pub fn ending(bitboards: &[u64], side: u8) -> Option<Verdict>
    ensures { Ends bitboards.now side result }
{
    if number(bitboards, KING, WHITE) + number(bitboards, KING, BLACK) < 2 {
        if number(bitboards, KING, to_move(side)) == 0 {
            return Some(Verdict::Lost);
        }
        return Some(Verdict::Won);
    }
    let x = bits::count(occupied(bitboards));
    if 3 < x {
        return None;
    }
    if heavy(bitboards) != 0 {
        return None;
    }
    Some(Verdict::Drawn)
}
