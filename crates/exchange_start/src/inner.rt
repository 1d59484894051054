// The tests that come before an exchange, for the crates above; those of MOVE and CROWD on a position that is consistent: total, no door.
ghost use Rattle.std.specs.Prelude.{◌≡◌};
ghost use Rattle.bits.specs.Bitboard.{has};
ghost use Rattle.position_boards.specs.Sound.{on};
ghost use Rattle.exchange_start.specs.Capture.{takes_passing, may_take};
ghost use Rattle.exchange_start.specs.declared.Mode.TheVariants.{Second};
ghost use Rattle.exchange_start.specs.Promises.{KindOn, TakesPassing, MayCapture, Uncrowded, BeginsExchange};

use crate::Mode;
use attack::inner::{attacks_from, occupied, other, standing};
use bits::inner::at;
use chess::color::{BLACK, WHITE};
use chess::inner::index;
use chess::kind::{KING, Kind, PAWN};
use exchange_order::inner::each_once;
use position::State;
use refusal::Refusal;

// Whether a square stands in b; none above 63 does.
fn holds(b: u64, square: u8) -> bool
    ensures { result ≡ has b square }
{
    if square > chess::square::LAST {
        return false;
    }
    (b >> square) & 1 != 0
}

// Whether a piece of the colour stands on a square.
fn stands(bitboards: &[u64], color: u8, square: u8) -> bool
    ensures { result ≡ on bitboards.now color square }
{
    holds(at(bitboards, index(color)), square)
}

// The kind of the piece on a square of the board.
pub fn kind_on(board: &[u8], square: u8) -> u8
    ensures { KindOn board.now square result }
{
    let i = index(square);
    if i < board.len() {
        return chess::inner::kind(board[i]);
    }
    KING
}

// A pawn on the start, and the en passant square as the target.
fn passes(board: &[u8], state: State, from: u8, to: u8) -> bool
    ensures { result ≡ takes_passing Second board.now state from to }
{
    if kind_on(board, from) != PAWN {
        return false;
    }
    let passant = state.passant;
    let Some(square) = passant else {
        return false;
    };
    square == to
}

// Whether the capture is one en passant, which the second mode alone knows.
pub fn takes_passing(mode: Mode, board: &[u8], state: State, from: u8, to: u8) -> bool
    ensures { TakesPassing mode board.now state from to result }
{
    match mode {
        Mode::First => false,
        Mode::Second => passes(board, state, from, to),
    }
}

// A piece of the other side on the target, or a pawn that takes en passant there.
fn may_take(mode: Mode, bitboards: &[u64], board: &[u8], state: State, from: u8, to: u8) -> bool
    ensures { result ≡ may_take mode bitboards.now board.now state from to }
{
    if stands(bitboards, other(state.side), to) {
        return true;
    }
    takes_passing(mode, board, state, from, to)
}

// A piece of the side on the start, one that it may take on the target, and the first attacks the second.
pub fn may_capture(
    mode: Mode,
    bitboards: &[u64],
    board: &[u8],
    state: State,
    from: u8,
    to: u8,
) -> bool
    ensures { MayCapture mode bitboards.now board.now state from to result }
{
    if !stands(bitboards, state.side, from) {
        return false;
    }
    if !may_take(mode, bitboards, board, state, from, to) {
        return false;
    }
    let targets = attacks_from(kind_on(board, from), state.side, from, occupied(bitboards));
    holds(targets, to)
}

// At most 32 pieces, and at most one king of each colour.
pub fn uncrowded(bitboards: &[u64]) -> bool
    ensures { Uncrowded bitboards.now result }
{
    if bits::count(occupied(bitboards)) > 32 {
        return false;
    }
    if bits::count(standing(bitboards, KING, WHITE)) > 1 {
        return false;
    }
    bits::count(standing(bitboards, KING, BLACK)) <= 1
}

// Whether a capture may start an exchange: SHAPE, OVERLAP, UNION, BYTEBOARD, RIGHTS, PASSANT, COUNTER, SQUARE, ORDER, MOVE, CROWD.
pub fn begins(
    mode: Mode,
    bitboards: &[u64],
    board: &[u8],
    state: State,
    order: &[u8; Kind::COUNT],
    from: u8,
    to: u8,
) -> Result<(), Refusal>
    ensures { BeginsExchange mode order.now bitboards.now board.now state from to result }
{
    position::check(bitboards, board, state)?;
    if from > chess::square::LAST {
        return Err(Refusal::Square);
    }
    if to > chess::square::LAST {
        return Err(Refusal::Square);
    }
    if !each_once(order) {
        return Err(Refusal::Order);
    }
    if !may_capture(mode, bitboards, board, state, from, to) {
        return Err(Refusal::Move);
    }
    if !uncrowded(bitboards) {
        return Err(Refusal::Crowd);
    }
    Ok(())
}
