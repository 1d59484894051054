// The doors for C and Rust to the profile of real play. Each gives 0, or a refusal and changes nothing.
#![tactic(auto)]

ghost use Rattle.abi_profiles.specs.Promises.{JudgesDoor, ReadsDoor};

use abi::lines::{Line, line_of};
use abi_codes::{Code, GIVEN, refused};
use abi_states::{State, taken};
use line_profile::Profile;

// Whether a position may come from real play: SHAPE, OVERLAP, UNION, BYTEBOARD, RIGHTS, PASSANT, COUNTER, KINGS, PAWNS, PIECES, RANK, CHECK.
pub fn chess_profile(bitboards: &[u64], board: &[u8], state: State) -> Code
    ensures { JudgesDoor bitboards.now board.now state result }
{
    match position_profile::judge(bitboards, board, taken(state)) {
        Err(refusal) => refused(refusal),
        Ok(()) => GIVEN,
    }
}

// The position of a line from real play, its state and the half points: SHAPE, LONG, BYTE, FIELD, PLACE, SIDE, RIGHTS, PASSANT, COUNTER, RESULT,
// KINGS, PAWNS, PIECES, RANK, CHECK.
pub fn chess_read_profile(line: &[u8], bitboards: &mut [u64], board: &mut [u8]) -> Line
    ensures { ReadsDoor line.now bitboards.old board.old result bitboards.new board.new }
{
    line_of(line_profile::read_line(Profile::RealPlay, line, bitboards, board))
}
