// The named weights' part of the double of a trace: material, mobility and the tempo, one rounding for each operation.
#![tactic(auto)]

ghost use Rattle.std.specs.Prelude.{◌≡◌, pos, get_or, ◌+◌, ◌*◌, ◌<◌};
ghost use Rattle.trace_named.specs.Named as D;
ghost use Rattle.trace_named.specs.Named.{count_added, moved, Sums};

use chess::color::{BLACKS, Color, WHITES};
use chess::piece::Piece;
use trace_counts::{Trace, Weights};

// The kinds whose attacked squares are weighed.
const KNIGHT: usize = chess::kind::KNIGHT as usize;

const BISHOP: usize = chess::kind::BISHOP as usize;

const ROOK: usize = chess::kind::ROOK as usize;

const QUEEN: usize = chess::kind::QUEEN as usize;

// The difference of two counts, weighed. It is taken in 64 bits, where no two counts overflow.
fn count_added(score: f64, counts: [i32; 2], weight: f64) -> f64
    ensures { result ≡ count_added score counts weight }
{
    score + (counts[WHITES] as i64 - counts[BLACKS] as i64) as f64 * weight
}

// White's attacked squares of a kind, weighed, are added, and then Black's subtracted.
fn mobility_added(score: f64, mobility: [i32; Piece::COUNT], kind: usize, weight: f64) -> f64
    requires { kind < 6 }
    ensures { result ≡ moved score (get_or mobility (2 * kind) (pos 0)) (get_or mobility (2 * kind + 1) (pos 0)) weight }
{
    let white = mobility[Color::COUNT * kind];
    let black = mobility[Color::COUNT * kind + 1];
    let added = score + white as f64 * weight / 10.0;
    added - black as f64 * weight / 10.0
}

fn material(trace: Trace, weights: Weights) -> f64
    ensures { result ≡ D.material_double trace weights }
{
    let pawns = trace.pawns;
    let knights = trace.knights;
    let bishops = trace.bishops;
    let rooks = trace.rooks;
    let queens = trace.queens;
    let bishop_pair = trace.bishop_pair;
    let p = count_added(0.0, pawns, weights.pawn);
    let n = count_added(p, knights, weights.knight);
    let b = count_added(n, bishops, weights.bishop);
    let r = count_added(b, rooks, weights.rook);
    let q = count_added(r, queens, weights.queen);
    count_added(q, bishop_pair, weights.bishop_pair)
}

fn mobility(trace: Trace, weights: Weights, score: f64) -> f64
    ensures { result ≡ D.mobility trace weights score }
{
    let mobility = trace.mobility;
    let n = mobility_added(score, mobility, KNIGHT, weights.knight_mobility);
    let b = mobility_added(n, mobility, BISHOP, weights.bishop_mobility);
    let r = mobility_added(b, mobility, ROOK, weights.rook_mobility);
    mobility_added(r, mobility, QUEEN, weights.queen_mobility)
}

// All that the eleven named weights give.
pub fn sum(trace: Trace, weights: Weights) -> f64
    ensures { Sums trace weights result }
{
    mobility(trace, weights, material(trace, weights)) + weights.tempo * trace.side as f64
}
