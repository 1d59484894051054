// What a trace has beside its 768 entries, the weights that have a name, and which traces are refused as TRACE.
#![tactic(auto)]

ghost use Rattle.std.specs.Prelude.{◌≡◌};
ghost use Rattle.trace_counts.specs.Ranges.{within, all_within, is_side, counts_within};
ghost use Rattle.trace_counts.specs.Promises.{TestsTrace, TestsEntries};

use chess::piece::Piece;

// The weights that have a name, in the order of their places.
#[derive(Clone, Copy)]
pub struct Weights {
    pub pawn: f64,
    pub knight: f64,
    pub bishop: f64,
    pub rook: f64,
    pub queen: f64,
    pub bishop_pair: f64,
    pub knight_mobility: f64,
    pub bishop_mobility: f64,
    pub rook_mobility: f64,
    pub queen_mobility: f64,
    pub tempo: f64,
}

// What a trace has beside its 768 entries: White's number, then Black's; mobility at 2·kind + colour.
#[derive(Clone, Copy)]
pub struct Trace {
    pub pawns: [i32; 2],
    pub knights: [i32; 2],
    pub bishops: [i32; 2],
    pub rooks: [i32; 2],
    pub queens: [i32; 2],
    pub bishop_pair: [i32; 2],
    pub mobility: [i32; Piece::COUNT],
    pub side: i32,
    pub piece_count: i32,
}

// TRACE's bounds: no more pieces than squares, and 64 pieces that attack 27 squares each.
const MOST_PIECES: i32 = 64;

const MOST_ATTACKED: i32 = 27 * MOST_PIECES;

fn is_within(number: i32, most: i32) -> bool
    ensures { result ≡ within most number }
{
    (0 <= number) & (number <= most)
}

fn all_within(numbers: &[i32], most: i32) -> bool
    ensures { result ≡ all_within most numbers.now }
{
    let mut good = true;
    for number in numbers {
        good = is_within(*number, most) & good;
    }
    good
}

fn is_side(side: i32) -> bool
    ensures { result ≡ is_side side }
{
    (side == 1) | (side == -1)
}

// Whether every square entry is 0 or 1: TRACE, if not.
pub fn are_entries(entries: &[i32]) -> bool
    ensures { TestsEntries entries.now result }
{
    all_within(entries, 1)
}

impl Trace {
    fn counts_within(self) -> bool
        ensures { result ≡ counts_within self }
    {
        let pawns = self.pawns;
        let knights = self.knights;
        let bishops = self.bishops;
        let rooks = self.rooks;
        let queens = self.queens;
        all_within(&pawns, MOST_PIECES)
            & all_within(&knights, MOST_PIECES)
            & all_within(&bishops, MOST_PIECES)
            & all_within(&rooks, MOST_PIECES)
            & all_within(&queens, MOST_PIECES)
    }

    // Whether all that a trace has beside its entries is in its range: TRACE, if not.
    pub fn in_ranges(self) -> bool
        ensures { TestsTrace self result }
    {
        let bishop_pair = self.bishop_pair;
        let mobility = self.mobility;
        self.counts_within()
            & all_within(&bishop_pair, 1)
            & all_within(&mobility, MOST_ATTACKED)
            & is_side(self.side)
            & is_within(self.piece_count, MOST_PIECES)
    }
}
