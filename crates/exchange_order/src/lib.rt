// The order in which the kinds capture (document 02, W-206): document 01's, by name.
#![tactic(auto)]

ghost use Rattle.exchange_order.specs.Promises.{GivesOrder};

use chess::kind::{BISHOP, KING, KNIGHT, Kind, PAWN, QUEEN, ROOK};

pub mod inner;

// Document 01's order, the Rust's.
pub const ORDER: [u8; Kind::COUNT] = [PAWN, KNIGHT, BISHOP, ROOK, QUEEN, KING];

// The same, for who would rather call: it is promised to be document 01's.
pub fn order() -> [u8; Kind::COUNT]
    ensures { GivesOrder result }
{
    ORDER
}
