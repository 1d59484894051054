// The least attacker, as eval.rs has it: the door.
#![tactic(auto)]

ghost use Rattle.exchange_least.specs.Promises.{Lvp};

use crate::inner::pick;
use chess::color::BLACK;
use chess::kind::Kind;
use exchange_order::inner::each_once;
use position::State;
use refusal::Refusal;

pub mod inner;

// The least attacker, its square and its kind: the lowest square of the first kind in the order that has an attacker of the colour, in `attacks` and in
// `occupied`: SHAPE, OVERLAP, UNION, BYTEBOARD, ORDER.
pub fn lvp(
    bitboards: &[u64],
    board: &[u8],
    state: State,
    order: &[u8; Kind::COUNT],
    color: u8,
    attacks: u64,
    occupied: u64,
) -> Result<Option<(u8, u8)>, Refusal>
    ensures { Lvp order.now bitboards.now board.now state color attacks occupied result }
{
    if color > BLACK {
        return Err(Refusal::Shape);
    }
    position::check(bitboards, board, state)?;
    if !each_once(order) {
        return Err(Refusal::Order);
    }
    Ok(pick(bitboards, order, color, attacks, occupied))
}
