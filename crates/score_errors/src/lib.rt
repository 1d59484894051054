// How far a collection's results lie from what its scores let expect: the squared distances summed exactly, line by line.
#![tactic(auto)]

ghost use Rattle.score_errors.specs.Promises.{StartsTotals, AddsLine};

use refusal::Refusal;
use score::Scored;

pub mod inner;

// How many lines had a score, how many a verdict or `over`, and the squared distances of the former, in millionths of millionths.
#[derive(Clone, Copy)]
pub struct Totals {
    pub scored: u64,
    pub apart: u64,
    pub sum: u64,
}

// Before any line.
pub fn start() -> Totals
    ensures { StartsTotals result }
{
    Totals {
        scored: 0,
        apart: 0,
        sum: 0,
    }
}

// The totals with a line more, by its side to move, its answer and its half points: SHAPE, RESULT, MANY.
pub fn add(
    totals: Totals,
    side: u8,
    answer: Result<Scored, Refusal>,
    half: u8,
) -> Result<Totals, Refusal>
    ensures { AddsLine totals side answer half result }
{
    let table = score_expected::inner::table();
    inner::add(totals, side, answer, half, &table)
}
