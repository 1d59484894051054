// The doors to the captures of an exchange, exported for C and Rust: each calls the function of its name in `abi_captures`,
// and promises what that promises.
#![tactic(auto)]

ghost use Rattle.abi_captures.specs.Promises.{TellsCaptures};

use abi_codes::Code;
use abi_states::State;
use chess::kind::Kind;
use exchange::inner::MOST;

#[unsafe(no_mangle)]
pub extern "C" fn chess_captures(
    bitboards: &[u64],
    board: &[u8],
    state: State,
    mode: u8,
    order: &[u8; Kind::COUNT],
    from: u8,
    to: u8,
    squares: &mut [u8; MOST],
    kinds: &mut [u8; MOST],
    taken: &mut [u16; MOST],
    count: &mut usize,
    stop: &mut usize,
) -> Code
    ensures { TellsCaptures mode order.now bitboards.now board.now state from to squares.old kinds.old taken.old count.old stop.old result squares.new kinds.new taken.new count.new stop.new }
{
    abi_captures::chess_captures(
        bitboards, board, state, mode, order, from, to, squares, kinds, taken, count, stop,
    )
}
