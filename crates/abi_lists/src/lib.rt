// The doors for C and Rust to a trace's list. Each gives 0, or a refusal and changes nothing. The list is lent as its bytes, 64 entries of kind,
// square and colour, and the record of counts as its numbers, in the order of the fields.
#![tactic(auto)]

ghost use Rattle.abi_lists.specs.Promises.{EvalsList, ListsTrace, FlattensList, ComputesTraceList, AddsTraceList};

use abi_codes::{Code, refused};
use abi_records::{COUNTS, MOBILITY, NAMED};
use abi_states::{State, taken};
use trace_list::BYTES;

// What every door here gives that does not refuse.
const GIVEN: Code = abi_codes::GIVEN;

// The double of a trace from its list: SHAPE, TRACE, ENTRY.
pub fn chess_list_eval(
    counts: &[i32; COUNTS],
    mobility: &[i32; MOBILITY],
    sign: i32,
    pieces: i32,
    used: u8,
    list: &[u8; BYTES],
    weights: &[f64; NAMED],
    squares: &[f64],
    value: &mut f64,
) -> Code
    ensures { EvalsList counts.now mobility.now sign pieces used list.now weights.now squares.now value.old result value.new }
{
    let trace = abi_records::trace_of(counts, mobility, sign, pieces);
    let named = abi_records::weights_of(weights);
    let answer = trace_list_double::eval_list(trace, used, list, named, squares);
    match answer {
        Err(refusal) => refused(refusal),
        Ok(x) => {
            *value = x;
            GIVEN
        }
    }
}

// A flat trace as a list: SHAPE, TRACE, ENTRY.
pub fn chess_list_of(
    counts: &[i32; COUNTS],
    mobility: &[i32; MOBILITY],
    sign: i32,
    pieces: i32,
    entries: &[i32],
    used: &mut u8,
    list: &mut [u8; BYTES],
) -> Code
    ensures { ListsTrace counts.now mobility.now sign pieces entries.now used.old list.old result used.new list.new }
{
    let trace = abi_records::trace_of(counts, mobility, sign, pieces);
    let answer = trace_list_turn::list_of(trace, entries, list);
    match answer {
        Err(refusal) => refused(refusal),
        Ok(n) => {
            *used = n;
            GIVEN
        }
    }
}

// A list as a flat trace: SHAPE, TRACE, ENTRY.
pub fn chess_flat_of(
    counts: &[i32; COUNTS],
    mobility: &[i32; MOBILITY],
    sign: i32,
    pieces: i32,
    used: u8,
    list: &[u8; BYTES],
    entries: &mut [i32],
) -> Code
    ensures { FlattensList counts.now mobility.now sign pieces used list.now entries.old result entries.new }
{
    let trace = abi_records::trace_of(counts, mobility, sign, pieces);
    let answer = trace_list_turn::flat_of(trace, used, list, entries);
    match answer {
        Err(refusal) => refused(refusal),
        Ok(()) => GIVEN,
    }
}

// A line's part of the gradient from a list, added to 779 sums: SHAPE, TRACE, ENTRY.
pub fn chess_list_add(
    counts: &[i32; COUNTS],
    mobility: &[i32; MOBILITY],
    sign: i32,
    pieces: i32,
    used: u8,
    list: &[u8; BYTES],
    coefficient: f64,
    gradient: &mut [f64],
) -> Code
    ensures { AddsTraceList counts.now mobility.now sign pieces used list.now coefficient gradient.old result gradient.new }
{
    let trace = abi_records::trace_of(counts, mobility, sign, pieces);
    let answer = fit_gradient::add_list(trace, used, list, coefficient, gradient);
    match answer {
        Err(refusal) => refused(refusal),
        Ok(()) => GIVEN,
    }
}

// The trace of a position as a list: SHAPE, OVERLAP, UNION, BYTEBOARD, RIGHTS, PASSANT, COUNTER.
pub fn chess_compute_list(
    bitboards: &[u64],
    board: &[u8],
    state: State,
    counts: &mut [i32; COUNTS],
    mobility: &mut [i32; MOBILITY],
    sign: &mut i32,
    pieces: &mut i32,
    used: &mut u8,
    list: &mut [u8; BYTES],
) -> Code
    ensures { ComputesTraceList bitboards.now board.now state counts.old mobility.old sign.old pieces.old used.old list.old result counts.new mobility.new sign.new pieces.new used.new list.new }
{
    let traced = trace_list_computed::compute_list(bitboards, board, taken(state), list);
    let checked = traced.checked;
    if let Err(refusal) = checked {
        return refused(refusal);
    }
    let trace = traced.trace;
    *counts = abi_records::counts_of(trace);
    let moved = trace.mobility;
    *mobility = moved;
    let turn = trace.side;
    *sign = turn;
    let total = trace.piece_count;
    *pieces = total;
    let entries = traced.used;
    *used = entries;
    GIVEN
}
