// The place of a trace entry: 128·kind + 2·square + colour.
ghost use Rattle.places.specs.Places.{EntryOf, EntryIndex};

use crate::inner;
use chess::color::Color;
use chess::kind::Kind;
use chess::square::Square;

// `of` makes no place past 767.
#[derive(Clone, Copy)]
pub struct Entry(usize);

impl Entry {
    pub const COUNT: usize = Kind::COUNT * Entry::PER_KIND;

    pub const PER_KIND: usize = Square::COUNT * Entry::PER_SQUARE;

    pub const PER_SQUARE: usize = Color::COUNT;

    pub fn of(kind: Kind, square: Square, color: Color) -> Entry
        ensures { EntryOf kind square color result }
    {
        Entry(inner::entry(kind.index(), square.index(), color.index()))
    }

    pub fn index(self) -> usize
        ensures { EntryIndex self result }
    {
        self.0
    }
}
