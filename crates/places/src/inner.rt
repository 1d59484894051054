// The same on plain numbers, for the loops of the crates above: total, and no door.
ghost use Rattle.places.specs.Places.{EntryPlace, WeightPlace};

use crate::entry::Entry;
use crate::weight::SquareWeight;
use chess::inner::index;

// Where a trace has the entry of a kind, a square and a colour.
pub fn entry(kind: u8, square: u8, color: u8) -> usize
    ensures { EntryPlace kind square color result }
{
    Entry::PER_KIND * index(kind) + Entry::PER_SQUARE * index(square) + index(color)
}

// Where the weight of a kind, a phase and a square stands.
pub fn weight(kind: u8, phase: u8, square: u8) -> usize
    ensures { WeightPlace kind phase square result }
{
    SquareWeight::PER_KIND * index(kind) + SquareWeight::PER_PHASE * index(phase) + index(square)
}
