// The door to the captures of an exchange.
#![tactic(auto)]

ghost use Rattle.std.specs.Prelude.{◌≡◌};
ghost use Rattle.exchange_value.specs.Answers.{stopped};
ghost use Rattle.abi_captures.specs.Promises.{stop_number, TellsSaid, TellsCaptures};
ghost use Rattle.exchange_told.specs.Told.{told_of};
ghost use Rattle.abi_states.specs.States.{state_taken};

use abi_codes::{Code, GIVEN, refused};
use abi_modes::mode_of;
use abi_states::State;
use chess::kind::Kind;
use exchange::inner::MOST;
use exchange_start::Mode;

fn stop_number(stop: Option<usize>, count: usize) -> usize
    ensures { result ≡ stop_number (stopped stop) count }
{
    match stop {
        None => count,
        Some(i) => i,
    }
}

// The captures in a mode that was named.
fn captures(
    mode: Mode,
    bitboards: &[u64],
    board: &[u8],
    state: State,
    order: &[u8; Kind::COUNT],
    from: u8,
    to: u8,
    squares: &mut [u8; MOST],
    kinds: &mut [u8; MOST],
    taken: &mut [u16; MOST],
    count: &mut usize,
    stop: &mut usize,
) -> Code
    ensures { TellsSaid (told_of mode order.now bitboards.now board.now (state_taken state) from to) squares.old kinds.old taken.old count.old stop.old result squares.new kinds.new taken.new count.new stop.new }
{
    let told = exchange_told::captures(
        mode,
        bitboards,
        board,
        abi_states::taken(state),
        order,
        from,
        to,
    );
    let checked = told.checked;
    if let Err(refusal) = checked {
        return refused(refusal);
    }
    let listed = told.listed;
    let point = told.stop;
    let made_from = listed.from;
    let made_by = listed.kind;
    let values = listed.taken;
    let n = listed.count;
    *squares = made_from;
    *kinds = made_by;
    *taken = values;
    *count = n;
    *stop = stop_number(point, n);
    GIVEN
}

// The captures of the exchange that a capture starts, in the first mode, 0, or the second, 1, each by its square, its kind and the value that it
// takes, zeros after them; how many there are; and before which of them the exchange stops, or their number where it is played out: SHAPE, OVERLAP,
// UNION, BYTEBOARD, RIGHTS, PASSANT, COUNTER, SQUARE, ORDER, MOVE, CROWD.
pub fn chess_captures(
    bitboards: &[u64],
    board: &[u8],
    state: State,
    mode: u8,
    order: &[u8; Kind::COUNT],
    from: u8,
    to: u8,
    squares: &mut [u8; MOST],
    kinds: &mut [u8; MOST],
    taken: &mut [u16; MOST],
    count: &mut usize,
    stop: &mut usize,
) -> Code
    ensures { TellsCaptures mode order.now bitboards.now board.now state from to squares.old kinds.old taken.old count.old stop.old result squares.new kinds.new taken.new count.new stop.new }
{
    let named = mode_of(mode);
    match named {
        Err(refusal) => refused(refusal),
        Ok(mode) => captures(
            mode, bitboards, board, state, order, from, to, squares, kinds, taken, count, stop,
        ),
    }
}
