// The doors for C and Rust to the records of a store. Each gives 0, or a refusal and changes nothing.
#![tactic(auto)]

ghost use Rattle.abi_stores.specs.Promises.{RecordRead, RecordWritten};

use abi::lines::{Line, line_of};
use abi_codes::{Code, GIVEN, refused};
use abi_states::{State, taken};

// The position, its state and the half points of a record, by its number from 0: SHAPE, LENGTH, ABSENT, CODE, SIDE, RESULT.
pub fn chess_read_record(run: &[u8], number: u64, bitboards: &mut [u64], board: &mut [u8]) -> Line
    ensures { RecordRead run.now number bitboards.old board.old result bitboards.new board.new }
{
    line_of(store_record::read_record(run, number, bitboards, board))
}

// The 34 bytes of a position and its half points, in the lent place: SHAPE, OVERLAP, UNION, BYTEBOARD, RIGHTS, PASSANT, COUNTER, RESULT, LENGTH.
pub fn chess_write_record(
    bitboards: &[u64],
    board: &[u8],
    state: State,
    half: u8,
    place: &mut [u8],
) -> Code
    ensures { RecordWritten bitboards.now board.now state half place.old result place.new }
{
    let answer = store_record::write_record(bitboards, board, taken(state), half, place);
    match answer {
        Ok(()) => GIVEN,
        Err(refusal) => refused(refusal),
    }
}
