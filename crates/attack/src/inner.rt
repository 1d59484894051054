// The same for the crates above, on a position that their own doors have found consistent: total, no door. `attacks`, which is asked of many
// pieces, has the step tables lent (`attack_steps::inner::tables`, made once for a call); the others find the steps of the one square that they need.
ghost use Rattle.attack.specs.Promises.{Other, Standing, Occupied, AttacksWith, AttacksFrom};

use attack_rays::inner::{bishop, queen, rook};
use attack_steps::inner::{ROWS, reached, step};
use bits::inner::at;
use chess::color::{BLACK, BLACK_BOARD, WHITE, WHITE_BOARD};
use chess::inner::code;
use chess::kind::{BISHOP, QUEEN, ROOK};
use chess::square::Square;

// The colour that is not the one named; any number but White's has White for the other.
pub fn other(color: u8) -> u8
    ensures { Other color result }
{
    if color == WHITE {
        return BLACK;
    }
    WHITE
}

// The bitboard of a kind and a colour.
pub fn standing(bitboards: &[u64], kind: u8, color: u8) -> u64
    ensures { Standing bitboards.now kind color result }
{
    at(bitboards, code(kind, color))
}

// Where a piece of either colour stands.
pub fn occupied(bitboards: &[u64]) -> u64
    ensures { Occupied bitboards.now result }
{
    bits::inner::union(at(bitboards, WHITE_BOARD), at(bitboards, BLACK_BOARD))
}

// The squares that a piece of a kind and a colour attacks; none from a square above 63, and none for a number that is no kind.
pub fn attacks(
    kind: u8,
    color: u8,
    square: u8,
    occupied: u64,
    tables: &[[u64; Square::COUNT]; ROWS],
) -> u64
    ensures { AttacksWith tables.now kind color square occupied result }
{
    match kind {
        BISHOP => bishop(square, occupied),
        ROOK => rook(square, occupied),
        QUEEN => queen(square, occupied),
        _ => step(tables, crate::row(kind, color), square),
    }
}

// The same of a single piece, where no tables are at hand.
pub fn attacks_from(kind: u8, color: u8, square: u8, occupied: u64) -> u64
    ensures { AttacksFrom kind color square occupied result }
{
    match kind {
        BISHOP => bishop(square, occupied),
        ROOK => rook(square, occupied),
        QUEEN => queen(square, occupied),
        _ => reached(crate::row(kind, color), square),
    }
}
