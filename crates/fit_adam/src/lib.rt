// The Adam update of `tune`: one step of both moments and the weights, 779 each, lent. The pawn's weight never moves.
#![tactic(auto)]

ghost use Rattle.fit_adam.specs.Promises.{StepsFit};

pub mod inner;

use refusal::Refusal;

pub const MOST_ITERATIONS: u64 = 1_000_000;

// The step of an iteration, whose powers are worked out from its number. SHAPE, then ITERATION.
pub fn step(
    gradient: &[f64],
    m: &mut [f64],
    v: &mut [f64],
    weights: &mut [f64],
    iteration: u64,
    rate: f64,
) -> Result<(), Refusal>
    ensures { StepsFit gradient.now m.old v.old weights.old iteration rate result m.new v.new weights.new }
{
    if !inner::is_shaped(gradient, m, v, weights) {
        return Err(Refusal::Shape);
    }
    if (iteration == 0) | (MOST_ITERATIONS < iteration) {
        return Err(Refusal::Iteration);
    }
    inner::moved(gradient, m, v, weights, inner::powers_of(iteration), rate)
}
