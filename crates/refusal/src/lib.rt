// Why a call is refused: the one table of documents 01 and 02, with the number of each and the square that some name.
#![tactic(auto)]

ghost use Rattle.refusal.specs.Refusals.{Numbers, NamesSquare};

// 1 to 13 are document 01's, the others document 02's. 2 was BOARD: 14 to 16 stand in its place, and no refusal has its number again.
// A number whose request has not landed is given by no call yet.
#[derive(Clone, Copy)]
pub enum Refusal {
    Shape,
    Score,
    Square,
    Move,
    Crowd,
    Trace,
    Long,
    Byte,
    Field,
    Place,
    Side,
    Result,
    // The two piece boards, the union, the byte at odds: the lowest such square.
    Overlap(u8),
    Union(u8),
    Byteboard(u8),
    Room,
    Length,
    // The lowest square whose half byte is no piece's.
    Code(u8),
    Order,
    Entry,
    Many,
    Iteration,
    Kings,
    Pawns,
    Pieces,
    // The lowest such pawn's square, and the king's.
    Rank(u8),
    Check(u8),
    Rights,
    Passant,
    Counter,
    Absent,
}

impl Refusal {
    // The documents' number.
    pub fn number(self) -> u8
        ensures { Numbers self result }
    {
        match self {
            Refusal::Shape => 1,
            Refusal::Score => 3,
            Refusal::Square => 4,
            Refusal::Move => 5,
            Refusal::Crowd => 6,
            Refusal::Trace => 7,
            Refusal::Long => 8,
            Refusal::Byte => 9,
            Refusal::Field => 10,
            Refusal::Place => 11,
            Refusal::Side => 12,
            Refusal::Result => 13,
            Refusal::Overlap(_) => 14,
            Refusal::Union(_) => 15,
            Refusal::Byteboard(_) => 16,
            Refusal::Room => 17,
            Refusal::Length => 18,
            Refusal::Code(_) => 19,
            Refusal::Order => 20,
            Refusal::Entry => 21,
            Refusal::Many => 22,
            Refusal::Iteration => 23,
            Refusal::Kings => 24,
            Refusal::Pawns => 25,
            Refusal::Pieces => 26,
            Refusal::Rank(_) => 27,
            Refusal::Check(_) => 28,
            Refusal::Rights => 29,
            Refusal::Passant => 30,
            Refusal::Counter => 31,
            Refusal::Absent => 32,
        }
    }

    // The square that it names: a refusal that names none has none, not a1.
    pub fn square(self) -> Option<u8>
        ensures { NamesSquare self result }
    {
        match self {
            Refusal::Overlap(square) => Some(square),
            Refusal::Union(square) => Some(square),
            Refusal::Byteboard(square) => Some(square),
            Refusal::Code(square) => Some(square),
            Refusal::Rank(square) => Some(square),
            Refusal::Check(square) => Some(square),
            _ => None,
        }
    }
}
