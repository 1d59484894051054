// The least attacker and the exchange.
ghost use Rattle.abi.specs.Promises.{Lvp, SeeIn, See};

use crate::GIVEN;
use abi_codes::{Code, refused};
use abi_modes::mode_of;
use abi_states::{State, taken};
use chess::kind::Kind;
use exchange_start::Mode;

// Whether there is an attacker of the colour, in `attacks` and in `occupied`, and the square and kind of the least in the order; 0 beside none:
// SHAPE, OVERLAP, UNION, BYTEBOARD, RIGHTS, PASSANT, COUNTER, ORDER.
pub fn chess_lvp(
    bitboards: &[u64],
    board: &[u8],
    state: State,
    order: &[u8; Kind::COUNT],
    color: u8,
    attacks: u64,
    occupied: u64,
    found: &mut bool,
    square: &mut u8,
    kind: &mut u8,
) -> Code
    ensures { Lvp order.now bitboards.now board.now state color attacks occupied found.old square.old kind.old result found.new square.new kind.new }
{
    let answer = exchange_least::lvp(
        bitboards,
        board,
        taken(state),
        order,
        color,
        attacks,
        occupied,
    );
    match answer {
        Err(refusal) => refused(refusal),
        Ok(None) => {
            *found = false;
            *square = 0;
            *kind = 0;
            GIVEN
        }
        Ok(Some((s, k))) => {
            *found = true;
            *square = s;
            *kind = k;
            GIVEN
        }
    }
}

// What the exchange is worth in a mode that was named.
fn see(
    mode: Mode,
    bitboards: &[u64],
    board: &[u8],
    state: State,
    order: &[u8; Kind::COUNT],
    from: u8,
    to: u8,
    worth: &mut i16,
) -> Code
    ensures { SeeIn mode order.now bitboards.now board.now state from to worth.old result worth.new }
{
    let answer = exchange::see(mode, bitboards, board, taken(state), order, from, to);
    match answer {
        Err(refusal) => refused(refusal),
        Ok(z) => {
            *worth = z;
            GIVEN
        }
    }
}

// What the exchange that a capture starts is worth to the side to move, in the first mode, 0, or the second, 1, and the kinds capturing in the order:
// SHAPE, OVERLAP, UNION, BYTEBOARD, RIGHTS, PASSANT, COUNTER, SQUARE, ORDER, MOVE, CROWD.
pub fn chess_see(
    bitboards: &[u64],
    board: &[u8],
    state: State,
    mode: u8,
    order: &[u8; Kind::COUNT],
    from: u8,
    to: u8,
    worth: &mut i16,
) -> Code
    ensures { See mode order.now bitboards.now board.now state from to worth.old result worth.new }
{
    let named = mode_of(mode);
    match named {
        Err(refusal) => refused(refusal),
        Ok(mode) => see(mode, bitboards, board, state, order, from, to, worth),
    }
}
