// The doors to the profile of real play, exported for C and Rust: each calls the function of its name in `abi_profiles`,
// and promises what that promises.
#![tactic(auto)]

ghost use Rattle.abi_profiles.specs.Promises.{JudgesDoor, ReadsDoor};

use abi::lines::Line;
use abi_codes::Code;
use abi_states::State;

#[unsafe(no_mangle)]
pub extern "C" fn chess_profile(bitboards: &[u64], board: &[u8], state: State) -> Code
    ensures { JudgesDoor bitboards.now board.now state result }
{
    abi_profiles::chess_profile(bitboards, board, state)
}

#[unsafe(no_mangle)]
pub extern "C" fn chess_read_profile(line: &[u8], bitboards: &mut [u64], board: &mut [u8]) -> Line
    ensures { ReadsDoor line.now bitboards.old board.old result bitboards.new board.new }
{
    abi_profiles::chess_read_profile(line, bitboards, board)
}
