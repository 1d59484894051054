// The double of a trace from its list: the flat form's, bit for bit, in one pass over the entries that there are.
#![tactic(auto)]

ghost use Rattle.std.specs.Prelude.{◌≡◌, cond, T, eqb, length, ◌<◌};
ghost use Rattle.doubles.specs.Doubles.{d1, minus1};
ghost use Rattle.places.specs.Places.{entry_place};
ghost use Rattle.trace_list.specs.Ones.{over};
ghost use Rattle.trace_list.specs.Form.{is_list, list_places};
ghost use Rattle.trace_list_double.specs.Promises as P;
ghost use Rattle.trace_list_double.specs.Promises.{DoublesList};

use chess::inner::index;
use places::weight::SquareWeight;
use refusal::Refusal;
use trace_counts::{Trace, Weights};
use trace_list::{BYTES, PER_ENTRY};

// 1 for White, −1 for Black, worked out: a jump on the colour can't be guessed.
fn sign(color: u8) -> f64
    requires { color < 2 }
    ensures { result ≡ cond (eqb color 0) d1 minus1 }
{
    1.0 - 2.0 * (color as f64)
}

// From the score so far that with one entry more: White's is added, Black's subtracted.
fn weighed(squares: &[f64], x: f64, score: f64, kind: u8, square: u8, color: u8) -> f64
    requires { (length squares.now ≡ 768) × (kind < 6) × (square < 64) × (color < 2) }
    ensures { result ≡ P.weighed squares.now x score (entry_place kind square color) }
{
    let at = SquareWeight::PER_KIND * index(kind) + index(square);
    let later = at + SquareWeight::PER_PHASE;
    let value = (squares[at] * (2.0 - x) + squares[later] * (x - 32.0)) / (2.0 - 32.0);
    score + sign(color) * value
}

// All that are used, one after the other, from a score on.
fn all_weighed(squares: &[f64], x: f64, used: usize, bytes: &[u8; BYTES], start: f64) -> f64
    requires { (length squares.now ≡ 768) × T (is_list used bytes.now) }
    ensures { result ≡ over (P.weighed squares.now x) start (list_places bytes.now used) }
{
    let mut score = start;
    for i in 0..used {
        let at = PER_ENTRY * i;
        score = weighed(squares, x, score, bytes[at], bytes[at + 1], bytes[at + 2]);
    }
    score
}

// The list and the 768 square weights are lent. SHAPE, TRACE, then ENTRY.
pub fn eval_list(
    trace: Trace,
    used: u8,
    bytes: &[u8; BYTES],
    weights: Weights,
    squares: &[f64],
) -> Result<f64, Refusal>
    ensures { DoublesList trace used bytes.now weights squares.now result }
{
    if squares.len() != SquareWeight::COUNT {
        return Err(Refusal::Shape);
    }
    if trace.in_ranges() {
        if trace_list::is_list(used, bytes) {
            let x = trace.piece_count as f64;
            let start = trace_named::sum(trace, weights);
            return Ok(all_weighed(squares, x, index(used), bytes, start));
        }
        return Err(Refusal::Entry);
    }
    Err(Refusal::Trace)
}
