// A store of records, 34 bytes each: a record read by its number, and one written.
#![tactic(auto)]

ghost use Rattle.store_record.specs.Promises.{ReadsRecord, WritesRecord};

use position::State;
use refusal::Refusal;

pub mod inner;

// SHAPE, LENGTH, ABSENT, and then what the record calls for. All of it is read before anything is written.
pub fn read_record(
    run: &[u8],
    number: u64,
    bitboards: &mut [u64],
    board: &mut [u8],
) -> Result<(State, u8), Refusal>
    ensures { ReadsRecord run.now number bitboards.old board.old result bitboards.new board.new }
{
    line::inner::deliver(inner::read_at(run, number), bitboards, board)
}

// The position's tests, RESULT, LENGTH; then the record.
pub fn write_record(
    bitboards: &[u64],
    board: &[u8],
    state: State,
    half: u8,
    place: &mut [u8],
) -> Result<(), Refusal>
    ensures { WritesRecord bitboards.now board.now state half place.old result place.new }
{
    position::check(bitboards, board, state)?;
    if half >= inner::NO_RESULT {
        return Err(Refusal::Result);
    }
    if place.len() != inner::RECORD {
        return Err(Refusal::Length);
    }
    let record = inner::pack(board, state.side, half);
    text_out::put(place, 0, &record);
    Ok(())
}
