// The doors to the records of a store, exported for C and Rust: each calls the function of its name in `abi_stores`,
// and promises what that promises.
#![tactic(auto)]

ghost use Rattle.abi_stores.specs.Promises.{RecordRead, RecordWritten};

use abi::lines::Line;
use abi_codes::Code;
use abi_states::State;

#[unsafe(no_mangle)]
pub extern "C" fn chess_read_record(
    run: &[u8],
    number: u64,
    bitboards: &mut [u64],
    board: &mut [u8],
) -> Line
    ensures { RecordRead run.now number bitboards.old board.old result bitboards.new board.new }
{
    abi_stores::chess_read_record(run, number, bitboards, board)
}

#[unsafe(no_mangle)]
pub extern "C" fn chess_write_record(
    bitboards: &[u64],
    board: &[u8],
    state: State,
    half: u8,
    place: &mut [u8],
) -> Code
    ensures { RecordWritten bitboards.now board.now state half place.old result place.new }
{
    abi_stores::chess_write_record(bitboards, board, state, half, place)
}
