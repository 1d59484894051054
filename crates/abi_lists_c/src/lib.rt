// The doors to a trace's list, exported for C and Rust: each calls the function of its name in `abi_lists`,
// and promises what that promises.
#![tactic(auto)]

ghost use Rattle.abi_lists.specs.Promises.{EvalsList, ListsTrace, FlattensList, AddsTraceList, ComputesTraceList};

use abi_codes::Code;
use abi_records::{COUNTS, MOBILITY, NAMED};
use abi_states::State;
use trace_list::BYTES;

#[unsafe(no_mangle)]
pub extern "C" fn chess_list_eval(
    counts: &[i32; COUNTS],
    mobility: &[i32; MOBILITY],
    sign: i32,
    pieces: i32,
    used: u8,
    list: &[u8; BYTES],
    weights: &[f64; NAMED],
    squares: &[f64],
    value: &mut f64,
) -> Code
    ensures { EvalsList counts.now mobility.now sign pieces used list.now weights.now squares.now value.old result value.new }
{
    abi_lists::chess_list_eval(
        counts, mobility, sign, pieces, used, list, weights, squares, value,
    )
}

#[unsafe(no_mangle)]
pub extern "C" fn chess_list_of(
    counts: &[i32; COUNTS],
    mobility: &[i32; MOBILITY],
    sign: i32,
    pieces: i32,
    entries: &[i32],
    used: &mut u8,
    list: &mut [u8; BYTES],
) -> Code
    ensures { ListsTrace counts.now mobility.now sign pieces entries.now used.old list.old result used.new list.new }
{
    abi_lists::chess_list_of(counts, mobility, sign, pieces, entries, used, list)
}

#[unsafe(no_mangle)]
pub extern "C" fn chess_flat_of(
    counts: &[i32; COUNTS],
    mobility: &[i32; MOBILITY],
    sign: i32,
    pieces: i32,
    used: u8,
    list: &[u8; BYTES],
    entries: &mut [i32],
) -> Code
    ensures { FlattensList counts.now mobility.now sign pieces used list.now entries.old result entries.new }
{
    abi_lists::chess_flat_of(counts, mobility, sign, pieces, used, list, entries)
}

#[unsafe(no_mangle)]
pub extern "C" fn chess_list_add(
    counts: &[i32; COUNTS],
    mobility: &[i32; MOBILITY],
    sign: i32,
    pieces: i32,
    used: u8,
    list: &[u8; BYTES],
    coefficient: f64,
    gradient: &mut [f64],
) -> Code
    ensures { AddsTraceList counts.now mobility.now sign pieces used list.now coefficient gradient.old result gradient.new }
{
    abi_lists::chess_list_add(
        counts,
        mobility,
        sign,
        pieces,
        used,
        list,
        coefficient,
        gradient,
    )
}

#[unsafe(no_mangle)]
pub extern "C" fn chess_compute_list(
    bitboards: &[u64],
    board: &[u8],
    state: State,
    counts: &mut [i32; COUNTS],
    mobility: &mut [i32; MOBILITY],
    sign: &mut i32,
    pieces: &mut i32,
    used: &mut u8,
    list: &mut [u8; BYTES],
) -> Code
    ensures { ComputesTraceList bitboards.now board.now state counts.old mobility.old sign.old pieces.old used.old list.old result counts.new mobility.new sign.new pieces.new used.new list.new }
{
    abi_lists::chess_compute_list(
        bitboards, board, state, counts, mobility, sign, pieces, used, list,
    )
}
