// One line of a collection.
ghost use Rattle.abi.specs.Promises.{GivesLine, ReadsLine, GivesPart};

use crate::GIVEN;
use abi_codes::{Code, refused};
use abi_states::{State, given};
use chess::color::WHITE;
use line::Part;
use position::of_side;
use refusal::Refusal;

// What a reader says beside the boards: 0, the state and the half points; or a refusal, and a state and half points that say nothing.
#[repr(C)]
#[derive(Clone, Copy)]
pub struct Line {
    pub code: Code,
    pub state: State,
    pub half: u8,
}

// No door: for whatever reader, of lines or of records.
pub fn line_of(read: Result<(position::State, u8), Refusal>) -> Line
    ensures { GivesLine read result }
{
    match read {
        Err(refusal) => Line {
            code: refused(refusal),
            state: given(of_side(WHITE)),
            half: 0,
        },
        Ok((state, half)) => Line {
            code: GIVEN,
            state: given(state),
            half,
        },
    }
}

// The position, its state and the half points: SHAPE, LONG, BYTE, FIELD, PLACE, SIDE, RIGHTS, PASSANT, COUNTER, RESULT.
pub fn chess_read_line(line: &[u8], bitboards: &mut [u64], board: &mut [u8]) -> Line
    ensures { ReadsLine line.now bitboards.old board.old result bitboards.new board.new }
{
    line_of(line::read_line(line, bitboards, board))
}

// Where the trimmed position field stands in the line; the empty part at 0 where the line is refused. Only blanks stand before its first byte.
pub fn chess_position_field(line: &[u8]) -> Part
    ensures { GivesPart line.now result }
{
    line::field_part(line)
}
