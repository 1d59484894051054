// Whether six kinds are an order, for the doors above: total, no door.
ghost use Rattle.std.specs.Prelude.{◌≡◌};
ghost use Rattle.exchange_order.specs.PrivateUnits.{unit_of};
ghost use Rattle.exchange_order.specs.Promises.{EachOnce};

use chess::kind::{BISHOP, KING, KNIGHT, Kind, PAWN, QUEEN, ROOK};

// A hexadecimal digit for each kind; a number that is no kind counts nowhere.
fn unit(kind: u8) -> u32
    ensures { result ≡ unit_of kind }
{
    match kind {
        PAWN => 0x1,
        KNIGHT => 0x10,
        BISHOP => 0x100,
        ROOK => 0x1000,
        QUEEN => 0x10000,
        KING => 0x100000,
        _ => 0,
    }
}

// Each kind counted once.
const ONE_EACH: u32 = 0x111111;

// Whether the six are each kind once.
pub fn each_once(order: &[u8; Kind::COUNT]) -> bool
    ensures { EachOnce order.now result }
{
    let mut counts: u32 = 0;
    for &kind in order {
        counts += unit(kind);
    }
    counts == ONE_EACH
}
