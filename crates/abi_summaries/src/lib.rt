// The doors for C and Rust to a store kept with its summary. Each gives 0, or a refusal and changes nothing.
#![tactic(auto)]

ghost use Rattle.abi_summaries.specs.Promises.{RecordAdded, RecordReplaced};

use abi_codes::{Code, GIVEN, refused};
use abi_states::{State, taken};

// A record more, and its counts: SHAPE, OVERLAP, UNION, BYTEBOARD, RIGHTS, PASSANT, COUNTER, RESULT, LENGTH, MANY, ROOM.
pub fn chess_add_record(
    bitboards: &[u64],
    board: &[u8],
    state: State,
    half: u8,
    run: &mut [u8],
    summary: &mut [u64],
) -> Code
    ensures { RecordAdded bitboards.now board.now state half run.old summary.old result run.new summary.new }
{
    let answer = store_summary::add_record(bitboards, board, taken(state), half, run, summary);
    match answer {
        Ok(()) => GIVEN,
        Err(refusal) => refused(refusal),
    }
}

// Another record in the place of a number: SHAPE, OVERLAP, UNION, BYTEBOARD, RIGHTS, PASSANT, COUNTER, RESULT, LENGTH, ABSENT, CODE, SIDE, RESULT, ABSENT.
pub fn chess_replace_record(
    bitboards: &[u64],
    board: &[u8],
    state: State,
    half: u8,
    number: u64,
    run: &mut [u8],
    summary: &mut [u64],
) -> Code
    ensures { RecordReplaced bitboards.now board.now state half number run.old summary.old result run.new summary.new }
{
    let answer = store_summary::replace_record(
        bitboards,
        board,
        taken(state),
        half,
        number,
        run,
        summary,
    );
    match answer {
        Ok(()) => GIVEN,
        Err(refusal) => refused(refusal),
    }
}
