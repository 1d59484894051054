// The sums over two parts of a collection put together: the sum over both, MANY where it would be.
#![tactic(auto)]

ghost use Rattle.std.specs.Prelude.{◌≡◌, ◌+◌, ltb};
ghost use Rattle.score_joined.specs.Sums.{totals_of_both, sum_of_both};
ghost use Rattle.score_joined.specs.Promises.{JoinsSums, TotalsFit};
ghost use Rattle.refusal.specs.Answer.{answered};

use refusal::Refusal;
use score_errors::Totals;

// As many lines of a kind are counted.
const MOST: u64 = 1_000_000;

// The largest sum, and the largest count of refused lines.
const LARGEST: u64 = 0xffff_ffff_ffff_ffff;

// Whether a sum is past a bound.
fn past(a: u64, b: u64, most: u64) -> bool
    ensures { result ≡ ltb most (a + b) }
{
    if most < a {
        return true;
    }
    most - a < b
}

// Each total of both.
fn added(x: Totals, y: Totals) -> Totals
    requires { TotalsFit x y }
    ensures { result ≡ totals_of_both x y }
{
    let scored = x.scored;
    let apart = x.apart;
    let sum = x.sum;
    let more_scored = y.scored;
    let more_apart = y.apart;
    let more_sum = y.sum;
    Totals {
        scored: scored + more_scored,
        apart: apart + more_apart,
        sum: sum + more_sum,
    }
}

// The totals and the refused lines of both: MANY.
fn both(x: Totals, m: u64, y: Totals, n: u64) -> Result<(Totals, u64), Refusal>
    ensures { answered result ≡ sum_of_both (x, m) (y, n) }
{
    if past(x.scored, y.scored, MOST) {
        return Err(Refusal::Many);
    }
    if past(x.apart, y.apart, MOST) {
        return Err(Refusal::Many);
    }
    if past(x.sum, y.sum, LARGEST) {
        return Err(Refusal::Many);
    }
    if past(m, n, LARGEST) {
        return Err(Refusal::Many);
    }
    let lines = m + n;
    Ok((added(x, y), lines))
}

// The sum over two parts, by the sum over each: MANY; and a part that was refused is refused again.
pub fn join(
    first: Result<(Totals, u64), Refusal>,
    second: Result<(Totals, u64), Refusal>,
) -> Result<(Totals, u64), Refusal>
    ensures { JoinsSums first second result }
{
    let (x, m) = first?;
    let (y, n) = second?;
    both(x, m, y, n)
}
