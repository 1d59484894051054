// For the crates above, on a position that their own doors have found consistent: total, and no door.
ghost use Rattle.trace.specs.Promises.{GathersMobility, GathersTrace};

use chess::piece::Piece;
use trace_counts::Trace;

// What the trace of these bitboards has beside its entries; its mobility is whatever is handed over.
pub fn gathered(bitboards: &[u64], side: u8, mobility: [i32; Piece::COUNT]) -> Trace
    ensures { GathersTrace bitboards.now side mobility result }
{
    crate::gathered(bitboards, side, mobility)
}

// How many squares the pieces of each kind and colour attack.
pub fn mobility(bitboards: &[u64]) -> [i32; Piece::COUNT]
    ensures { GathersMobility bitboards.now result }
{
    crate::mobility(bitboards)
}
