// The doors to a trace, its double and the fitting step, exported for C and Rust: each calls the function of its name in `abi_fits`,
// and promises what that promises.
#![tactic(auto)]

ghost use Rattle.abi_fits.specs.Promises.{AddsGradient, StepsAdam, ComputesTrace, EvalsTrace, Ships};

use abi_codes::Code;
use abi_records::{COUNTS, MOBILITY, NAMED};
use abi_states::State;

#[unsafe(no_mangle)]
pub extern "C" fn chess_gradient_add(
    counts: &[i32; COUNTS],
    mobility: &[i32; MOBILITY],
    sign: i32,
    pieces: i32,
    entries: &[i32],
    coefficient: f64,
    gradient: &mut [f64],
) -> Code
    ensures { AddsGradient counts.now mobility.now sign pieces entries.now coefficient gradient.old result gradient.new }
{
    abi_fits::fits::chess_gradient_add(
        counts,
        mobility,
        sign,
        pieces,
        entries,
        coefficient,
        gradient,
    )
}

#[unsafe(no_mangle)]
pub extern "C" fn chess_adam_step(
    gradient: &[f64],
    m: &mut [f64],
    v: &mut [f64],
    weights: &mut [f64],
    iteration: u64,
    rate: f64,
) -> Code
    ensures { StepsAdam gradient.now m.old v.old weights.old iteration rate result m.new v.new weights.new }
{
    abi_fits::fits::chess_adam_step(gradient, m, v, weights, iteration, rate)
}

#[unsafe(no_mangle)]
pub extern "C" fn chess_compute_trace(
    bitboards: &[u64],
    board: &[u8],
    state: State,
    counts: &mut [i32; COUNTS],
    mobility: &mut [i32; MOBILITY],
    sign: &mut i32,
    pieces: &mut i32,
    entries: &mut [i32],
) -> Code
    ensures { ComputesTrace bitboards.now board.now state counts.old mobility.old sign.old pieces.old entries.old result counts.new mobility.new sign.new pieces.new entries.new }
{
    abi_fits::traces::chess_compute_trace(
        bitboards, board, state, counts, mobility, sign, pieces, entries,
    )
}

#[unsafe(no_mangle)]
pub extern "C" fn chess_trace_eval(
    counts: &[i32; COUNTS],
    mobility: &[i32; MOBILITY],
    sign: i32,
    pieces: i32,
    entries: &[i32],
    weights: &[f64; NAMED],
    squares: &[f64],
    value: &mut f64,
) -> Code
    ensures { EvalsTrace counts.now mobility.now sign pieces entries.now weights.now squares.now value.old result value.new }
{
    abi_fits::traces::chess_trace_eval(
        counts, mobility, sign, pieces, entries, weights, squares, value,
    )
}

#[unsafe(no_mangle)]
pub extern "C" fn chess_shipped_weights(weights: &mut [f64; NAMED], squares: &mut [f64]) -> Code
    ensures { Ships weights.old squares.old result weights.new squares.new }
{
    abi_fits::traces::chess_shipped_weights(weights, squares)
}
