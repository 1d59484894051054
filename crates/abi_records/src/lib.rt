// The records of a trace's counts and of the named weights as flat lists of numbers in the order of the fields, both ways.
#![tactic(auto)]

ghost use Rattle.std.specs.Prelude.{◌≡◌, ◌+◌, ◌<◌};
ghost use Rattle.abi_records.specs.Records.{pair_of};
ghost use Rattle.abi_records.specs.Promises.{GivesCounts, GivesTrace, GivesNamed, GivesWeights};

use chess::color::{BLACKS, Color, WHITES};
use chess::kind::Kind;
use chess::piece::Piece;
use places::weight;
use places::weight::Weight;
use trace_counts::{Trace, Weights};

// Six pairs of counts, White's and Black's; the numbers of mobility; the weights that have a name.
pub const COUNTS: usize = Kind::COUNT * Color::COUNT;

pub const MOBILITY: usize = Piece::COUNT;

pub const NAMED: usize = Weight::NAMED;

// A trace's counts and pair flags, in the order of its fields.
pub fn counts_of(trace: Trace) -> [i32; COUNTS]
    ensures { GivesCounts trace result }
{
    let pawns = trace.pawns;
    let knights = trace.knights;
    let bishops = trace.bishops;
    let rooks = trace.rooks;
    let queens = trace.queens;
    let bishop_pair = trace.bishop_pair;
    [
        pawns[WHITES],
        pawns[BLACKS],
        knights[WHITES],
        knights[BLACKS],
        bishops[WHITES],
        bishops[BLACKS],
        rooks[WHITES],
        rooks[BLACKS],
        queens[WHITES],
        queens[BLACKS],
        bishop_pair[WHITES],
        bishop_pair[BLACKS],
    ]
}

// White's number at a place, and Black's after it.
fn pair(counts: &[i32; COUNTS], at: usize) -> [i32; Color::COUNT]
    requires { at + 1 < 12 }
    ensures { result ≡ pair_of counts.now at }
{
    [counts[at], counts[at + 1]]
}

// And back: a trace of its numbers.
pub fn trace_of(counts: &[i32; COUNTS], mobility: &[i32; MOBILITY], side: i32, pieces: i32) -> Trace
    ensures { GivesTrace counts.now mobility.now side pieces result }
{
    let mobility = *mobility;
    Trace {
        pawns: pair(counts, 0),
        knights: pair(counts, 2),
        bishops: pair(counts, 4),
        rooks: pair(counts, 6),
        queens: pair(counts, 8),
        bishop_pair: pair(counts, 10),
        mobility,
        side,
        piece_count: pieces,
    }
}

// The named weights of their numbers.
pub fn weights_of(named: &[f64; NAMED]) -> Weights
    ensures { GivesWeights named.now result }
{
    Weights {
        pawn: named[weight::P],
        knight: named[weight::N],
        bishop: named[weight::B],
        rook: named[weight::R],
        queen: named[weight::Q],
        bishop_pair: named[weight::BP],
        knight_mobility: named[weight::MOB_N],
        bishop_mobility: named[weight::MOB_B],
        rook_mobility: named[weight::MOB_R],
        queen_mobility: named[weight::MOB_Q],
        tempo: named[weight::T],
    }
}

// And back.
pub fn named_of(weights: Weights) -> [f64; NAMED]
    ensures { GivesNamed weights result }
{
    [
        weights.pawn,
        weights.knight,
        weights.bishop,
        weights.rook,
        weights.queen,
        weights.bishop_pair,
        weights.knight_mobility,
        weights.bishop_mobility,
        weights.rook_mobility,
        weights.queen_mobility,
        weights.tempo,
    ]
}
