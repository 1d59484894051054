// Who attacks a square, and check, as attack.rs has them: the doors.
#![tactic(auto)]

ghost use Rattle.attack_to.specs.Promises.{AttacksTo, IsAttacked, IsCheck};

use chess::color::BLACK;
use position::State;
use refusal::Refusal;

pub mod inner;

// The squares of the pieces of both colours that attack a square, whether they stand in `occupied` or not: SHAPE, OVERLAP, UNION, BYTEBOARD, SQUARE.
pub fn attacks_to(
    bitboards: &[u64],
    board: &[u8],
    state: State,
    square: u8,
    occupied: u64,
) -> Result<u64, Refusal>
    ensures { AttacksTo bitboards.now board.now state square occupied result }
{
    position::check(bitboards, board, state)?;
    if square <= chess::square::LAST {
        return Ok(inner::attacks_to(bitboards, square, occupied));
    }
    Err(Refusal::Square)
}

// Whether a piece of the other colour attacks a square: SHAPE, OVERLAP, UNION, BYTEBOARD, SQUARE.
pub fn is_attacked(
    bitboards: &[u64],
    board: &[u8],
    state: State,
    square: u8,
    color: u8,
) -> Result<bool, Refusal>
    ensures { IsAttacked bitboards.now board.now state square color result }
{
    if color > BLACK {
        return Err(Refusal::Shape);
    }
    position::check(bitboards, board, state)?;
    if square > chess::square::LAST {
        return Err(Refusal::Square);
    }
    Ok(inner::is_attacked(bitboards, square, color))
}

// Whether a colour's king is attacked, the lowest if it has several; true if it has none: SHAPE, OVERLAP, UNION, BYTEBOARD.
pub fn is_check(bitboards: &[u64], board: &[u8], state: State, color: u8) -> Result<bool, Refusal>
    ensures { IsCheck bitboards.now board.now state color result }
{
    if color > BLACK {
        return Err(Refusal::Shape);
    }
    position::check(bitboards, board, state)?;
    Ok(inner::is_check(bitboards, color))
}
