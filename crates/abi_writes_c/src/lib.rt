// The doors to the writer of a line, exported for C and Rust: each calls the function of its name in `abi_writes`,
// and promises what that promises.
#![tactic(auto)]

ghost use Rattle.abi_writes.specs.Promises.{WritesPosition};

use abi_codes::Code;
use abi_states::State;

#[unsafe(no_mangle)]
pub extern "C" fn chess_write_line(
    bitboards: &[u64],
    board: &[u8],
    state: State,
    request: u8,
    half: u8,
    out: &mut [u8],
    length: &mut usize,
) -> Code
    ensures { WritesPosition bitboards.now board.now state request half out.old length.old result out.new length.new }
{
    abi_writes::chess_write_line(bitboards, board, state, request, half, out, length)
}
