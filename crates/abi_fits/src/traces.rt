// The trace, the shipped weights, and the trace's double. The records of counts and of named weights are lent as their numbers, in the order of the fields.
ghost use Rattle.abi_fits.specs.Promises.{ComputesTrace, EvalsTrace, Ships};

use crate::GIVEN;
use abi_codes::{Code, refused};
use abi_records::{COUNTS, MOBILITY, NAMED};
use abi_states::{State, taken};

// The trace of a position: SHAPE, also where there are not 768 entries, OVERLAP, UNION, BYTEBOARD, RIGHTS, PASSANT, COUNTER.
pub fn chess_compute_trace(
    bitboards: &[u64],
    board: &[u8],
    state: State,
    counts: &mut [i32; COUNTS],
    mobility: &mut [i32; MOBILITY],
    sign: &mut i32,
    pieces: &mut i32,
    entries: &mut [i32],
) -> Code
    ensures { ComputesTrace bitboards.now board.now state counts.old mobility.old sign.old pieces.old entries.old result counts.new mobility.new sign.new pieces.new entries.new }
{
    let traced = trace::compute_trace(bitboards, board, taken(state), entries);
    let checked = traced.checked;
    if let Err(refusal) = checked {
        return refused(refusal);
    }
    let trace = traced.trace;
    *counts = abi_records::counts_of(trace);
    let moved = trace.mobility;
    *mobility = moved;
    let turn = trace.side;
    *sign = turn;
    let total = trace.piece_count;
    *pieces = total;
    GIVEN
}

// The double of a trace: SHAPE, TRACE.
pub fn chess_trace_eval(
    counts: &[i32; COUNTS],
    mobility: &[i32; MOBILITY],
    sign: i32,
    pieces: i32,
    entries: &[i32],
    weights: &[f64; NAMED],
    squares: &[f64],
    value: &mut f64,
) -> Code
    ensures { EvalsTrace counts.now mobility.now sign pieces entries.now weights.now squares.now value.old result value.new }
{
    let trace = abi_records::trace_of(counts, mobility, sign, pieces);
    let answer = trace_double::eval(trace, entries, abi_records::weights_of(weights), squares);
    match answer {
        Err(refusal) => refused(refusal),
        Ok(x) => {
            *value = x;
            GIVEN
        }
    }
}

// The weights that the score ships with: SHAPE, where there is not room for just 768 square weights.
pub fn chess_shipped_weights(weights: &mut [f64; NAMED], squares: &mut [f64]) -> Code
    ensures { Ships weights.old squares.old result weights.new squares.new }
{
    let written = trace_shipped::square_weights(squares);
    if let Err(refusal) = written {
        return refused(refusal);
    }
    *weights = abi_records::named_of(trace_shipped::weights());
    GIVEN
}
