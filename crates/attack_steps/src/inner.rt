// The tables as the crates above take them: made once for a call, then lent. Total, and no door.
ghost use Rattle.attack_steps.specs.Promises.{Table, Tables, Reaches, Steps};

use crate::{BLACK_PAWN, KING, KNIGHT, WHITE_PAWN};
use chess::square::{Square, UP};

// The rows of the tables.
pub const WHITE_PAWN_ROW: usize = 0;

pub const BLACK_PAWN_ROW: usize = 1;

pub const KNIGHT_ROW: usize = 2;

pub const KING_ROW: usize = 3;

pub const ROWS: usize = 4;

// One table; past the four, an empty one.
pub fn table(row: usize) -> [u64; Square::COUNT]
    ensures { Table row result }
{
    match row {
        WHITE_PAWN_ROW => WHITE_PAWN,
        BLACK_PAWN_ROW => BLACK_PAWN,
        KNIGHT_ROW => KNIGHT,
        KING_ROW => KING,
        _ => [0; Square::COUNT],
    }
}

// A constant array is built anew wherever it is read: make these once, and lend them.
pub fn tables() -> [[u64; Square::COUNT]; ROWS]
    ensures { Tables result }
{
    [
        table(WHITE_PAWN_ROW),
        table(BLACK_PAWN_ROW),
        table(KNIGHT_ROW),
        table(KING_ROW),
    ]
}

// Not off the file beside it, nor off the two: where a shift within a rank may come to.
const RIGHT_OF: u64 = 0xfefe_fefe_fefe_fefe;

const LEFT_OF: u64 = 0x7f7f_7f7f_7f7f_7f7f;

const TWO_RIGHT_OF: u64 = 0xfcfc_fcfc_fcfc_fcfc;

const TWO_LEFT_OF: u64 = 0x3f3f_3f3f_3f3f_3f3f;

const UP_TWO: u64 = 2 * UP;

// For a single square, where no tables are at hand: shifts are quicker than a table made for it.
pub fn reached(row: usize, square: u8) -> u64
    ensures { Reaches row square result }
{
    if square > chess::square::LAST {
        return 0;
    }
    let own: u64 = 1 << square;
    let beside = ((own << 1) & RIGHT_OF) | ((own >> 1) & LEFT_OF);
    let two_beside = ((own << 2) & TWO_RIGHT_OF) | ((own >> 2) & TWO_LEFT_OF);
    match row {
        WHITE_PAWN_ROW => beside << UP,
        BLACK_PAWN_ROW => beside >> UP,
        KNIGHT_ROW => ((beside << UP_TWO) | (beside >> UP_TWO))
            | ((two_beside << UP) | (two_beside >> UP)),
        KING_ROW => beside | (((own | beside) << UP) | ((own | beside) >> UP)),
        _ => 0,
    }
}

// The squares that the steps of a row reach from a square; none past the tables.
pub fn step(tables: &[[u64; Square::COUNT]; ROWS], row: usize, square: u8) -> u64
    ensures { Steps tables.now row square result }
{
    if square > chess::square::LAST {
        return 0;
    }
    if row > 3 {
        return 0;
    }
    tables[row][square as usize]
}
