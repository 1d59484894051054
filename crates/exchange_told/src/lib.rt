// The captures of an exchange, and where it stops (document 02, W-207): the door.
#![tactic(auto)]

ghost use Rattle.std.specs.Prelude.{[]};
ghost use Rattle.exchange.specs.Promises.{HoldsCaptures};
ghost use Rattle.exchange_told.specs.Promises.{Captures};

use chess::kind::Kind;
use exchange::inner::{Listed, MOST, list};
use exchange_start::Mode;
use exchange_start::inner::begins;
use exchange_value::inner::stop;
use position::State;
use refusal::Refusal;

// Whether the exchange was refused, its captures, and where it stops; beside a refusal no capture, and nothing that stops.
#[derive(Clone, Copy)]
pub struct Told {
    pub checked: Result<(), Refusal>,
    pub listed: Listed,
    pub stop: Option<usize>,
}

fn none() -> Listed
    ensures { HoldsCaptures [] result }
{
    Listed {
        from: [0; MOST],
        kind: [0; MOST],
        taken: [0; MOST],
        count: 0,
    }
}

// The captures that the piece on `from` starts on `to`, in a mode and the kinds capturing in the order: SHAPE, OVERLAP, UNION, BYTEBOARD, RIGHTS,
// PASSANT, COUNTER, SQUARE, ORDER, MOVE, CROWD.
pub fn captures(
    mode: Mode,
    bitboards: &[u64],
    board: &[u8],
    state: State,
    order: &[u8; Kind::COUNT],
    from: u8,
    to: u8,
) -> Told
    ensures { Captures mode order.now bitboards.now board.now state from to result }
{
    if let Err(refusal) = begins(mode, bitboards, board, state, order, from, to) {
        return Told {
            checked: Err(refusal),
            listed: none(),
            stop: None,
        };
    }
    let listed = list(mode, bitboards, board, order, state, from, to);
    let taken = listed.taken;
    let n = listed.count;
    Told {
        checked: Ok(()),
        listed,
        stop: stop(&taken[0..n]),
    }
}
