// The table for the loops of the crates above: made once, lent, and read. Total, and no door.
ghost use Rattle.score_expected.specs.Promises.{MakesExpected, PlacesScore, ReadsExpected};

use crate::{COUNT, MILLIONTHS};

// The ends of the range, and its step.
const MOST: i32 = 1600;

const STEP: i32 = 4;

// The whole table. A constant is built anew wherever it is read: who loops makes it once and lends it.
pub fn table() -> [u32; COUNT]
    ensures { MakesExpected result }
{
    MILLIONTHS
}

// Where the table has the entry of a score: a score outside the range counts as its end, others as the multiple of four at or below.
pub fn place(score: i32) -> usize
    ensures { PlacesScore score result }
{
    if score < -MOST {
        return 0;
    }
    if MOST < score {
        return COUNT - 1;
    }
    ((score + MOST) / STEP) as usize
}

// The entry that a lent table has there.
pub fn entry(table: &[u32; COUNT], score: i32) -> u32
    ensures { ReadsExpected table.now score result }
{
    table[place(score)]
}
