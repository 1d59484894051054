// The fitting step: a line's part added to the sums of a gradient, and the step of an iteration.
ghost use Rattle.abi_fits.specs.Promises.{AddsGradient, StepsAdam};

use crate::GIVEN;
use abi_codes::{Code, refused};
use abi_records::{COUNTS, MOBILITY};

// A line's part of the gradient, added to 779 sums: SHAPE, TRACE.
pub fn chess_gradient_add(
    counts: &[i32; COUNTS],
    mobility: &[i32; MOBILITY],
    sign: i32,
    pieces: i32,
    entries: &[i32],
    coefficient: f64,
    gradient: &mut [f64],
) -> Code
    ensures { AddsGradient counts.now mobility.now sign pieces entries.now coefficient gradient.old result gradient.new }
{
    let trace = abi_records::trace_of(counts, mobility, sign, pieces);
    let answer = fit_gradient::add(trace, entries, coefficient, gradient);
    match answer {
        Err(refusal) => refused(refusal),
        Ok(()) => GIVEN,
    }
}

// The step of an iteration over 779 weights and both moments: SHAPE, ITERATION.
pub fn chess_adam_step(
    gradient: &[f64],
    m: &mut [f64],
    v: &mut [f64],
    weights: &mut [f64],
    iteration: u64,
    rate: f64,
) -> Code
    ensures { StepsAdam gradient.now m.old v.old weights.old iteration rate result m.new v.new weights.new }
{
    let answer = fit_adam::step(gradient, m, v, weights, iteration, rate);
    match answer {
        Err(refusal) => refused(refusal),
        Ok(()) => GIVEN,
    }
}
