// The doors to a store kept with its summary, exported for C and Rust: each calls the function of its name in `abi_summaries`,
// and promises what that promises.
#![tactic(auto)]

ghost use Rattle.abi_summaries.specs.Promises.{RecordAdded, RecordReplaced};

use abi_codes::Code;
use abi_states::State;

#[unsafe(no_mangle)]
pub extern "C" fn chess_add_record(
    bitboards: &[u64],
    board: &[u8],
    state: State,
    half: u8,
    run: &mut [u8],
    summary: &mut [u64],
) -> Code
    ensures { RecordAdded bitboards.now board.now state half run.old summary.old result run.new summary.new }
{
    abi_summaries::chess_add_record(bitboards, board, state, half, run, summary)
}

#[unsafe(no_mangle)]
pub extern "C" fn chess_replace_record(
    bitboards: &[u64],
    board: &[u8],
    state: State,
    half: u8,
    number: u64,
    run: &mut [u8],
    summary: &mut [u64],
) -> Code
    ensures { RecordReplaced bitboards.now board.now state half number run.old summary.old result run.new summary.new }
{
    abi_summaries::chess_replace_record(bitboards, board, state, half, number, run, summary)
}
