// What a piece attacks, who attacks a square, check.
ghost use Rattle.abi.specs.Promises.{PieceAttacks, AttacksTo, IsAttacked, IsCheck};

use crate::GIVEN;
use abi_codes::{Code, refused};
use abi_states::{State, taken};

// The squares that a piece attacks: SHAPE, SQUARE.
pub fn chess_piece_attacks(piece: u8, square: u8, occupied: u64, squares: &mut u64) -> Code
    ensures { PieceAttacks piece square occupied squares.old result squares.new }
{
    let answer = attack::piece_attacks(piece, square, occupied);
    match answer {
        Err(refusal) => refused(refusal),
        Ok(b) => {
            *squares = b;
            GIVEN
        }
    }
}

// The squares of the attackers of both colours, whether they stand in `occupied` or not: SHAPE, OVERLAP, UNION, BYTEBOARD, RIGHTS, PASSANT, COUNTER, SQUARE.
pub fn chess_attacks_to(
    bitboards: &[u64],
    board: &[u8],
    state: State,
    square: u8,
    occupied: u64,
    squares: &mut u64,
) -> Code
    ensures { AttacksTo bitboards.now board.now state square occupied squares.old result squares.new }
{
    let answer = attack_to::attacks_to(bitboards, board, taken(state), square, occupied);
    match answer {
        Err(refusal) => refused(refusal),
        Ok(b) => {
            *squares = b;
            GIVEN
        }
    }
}

// Whether a piece of the colour other than the one named attacks a square: SHAPE, OVERLAP, UNION, BYTEBOARD, RIGHTS, PASSANT, COUNTER, SQUARE.
pub fn chess_is_attacked(
    bitboards: &[u64],
    board: &[u8],
    state: State,
    square: u8,
    color: u8,
    attacked: &mut bool,
) -> Code
    ensures { IsAttacked bitboards.now board.now state square color attacked.old result attacked.new }
{
    let answer = attack_to::is_attacked(bitboards, board, taken(state), square, color);
    match answer {
        Err(refusal) => refused(refusal),
        Ok(is) => {
            *attacked = is;
            GIVEN
        }
    }
}

// Whether a colour's king is attacked, the lowest if it has several; true if it has none: SHAPE, OVERLAP, UNION, BYTEBOARD, RIGHTS, PASSANT, COUNTER.
pub fn chess_is_check(
    bitboards: &[u64],
    board: &[u8],
    state: State,
    color: u8,
    check: &mut bool,
) -> Code
    ensures { IsCheck bitboards.now board.now state color check.old result check.new }
{
    let answer = attack_to::is_check(bitboards, board, taken(state), color);
    match answer {
        Err(refusal) => refused(refusal),
        Ok(is) => {
            *check = is;
            GIVEN
        }
    }
}
