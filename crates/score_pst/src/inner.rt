// The table for the loops of the crates above: made once, lent, and read. Total, and no door.
ghost use Rattle.std.specs.Prelude.{◌≡◌};
ghost use Rattle.score_pst.specs.Promises.{MakesTable, Weighs, PlacesWeight};

use crate::{COUNT, PER_CODE, PST};
use chess::inner::index;
use places::phase::Phase;

// The whole table. A constant is built anew wherever it is read: who loops makes it once and lends it.
pub fn table() -> [i8; COUNT]
    ensures { MakesTable result }
{
    PST
}

// Where a table has the weight of a code, a square and a phase.
pub fn place(code: u8, square: u8, phase: u8) -> usize
    ensures { PlacesWeight code square phase result }
{
    PER_CODE * index(code) + Phase::COUNT * index(square) + index(phase)
}

fn wide(z: i8) -> i16
    ensures { result ≡ z }
{
    z as i16
}

// The weight that a lent table has there, in the original's 16 bits; 0 past its end.
pub fn weight(pst: &[i8], code: u8, square: u8, phase: u8) -> i16
    ensures { Weighs pst.now code square phase result }
{
    let i = place(code, square, phase);
    if i < pst.len() {
        return wide(pst[i]);
    }
    0
}
