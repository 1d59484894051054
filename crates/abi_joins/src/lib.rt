// The doors for C and Rust to the sums and the summaries of parts, joined. Each gives 0, or a refusal and changes nothing.
#![tactic(auto)]

ghost use Rattle.std.specs.Prelude.{◌≡◌, Ok};
ghost use Rattle.abi_errors.specs.Numbers.{totals_from};
ghost use Rattle.abi_joins.specs.Promises.{ErrorsJoined, SummaryJoined};

use abi_codes::{Code, GIVEN, refused};
use refusal::Refusal;
use score_errors::Totals;

// Lines with a score, lines apart, the sum.
pub const TOTALS: usize = 3;

fn sum_of(totals: &[u64; TOTALS], lines: u64) -> Result<(Totals, u64), Refusal>
    ensures { result ≡ Ok ((totals_from totals.now), lines) }
{
    Ok((
        Totals {
            scored: totals[0],
            apart: totals[1],
            sum: totals[2],
        },
        lines,
    ))
}

// The totals of another part and its refused lines, added to those before it: MANY.
pub fn chess_error_join(
    totals: &mut [u64; TOTALS],
    lines: &mut u64,
    more: &[u64; TOTALS],
    others: u64,
) -> Code
    ensures { ErrorsJoined totals.old lines.old more.now others result totals.new lines.new }
{
    let before = sum_of(totals, *lines);
    let joined = score_joined::join(before, sum_of(more, others));
    match joined {
        Ok((sums, count)) => {
            *totals = [sums.scored, sums.apart, sums.sum];
            *lines = count;
            GIVEN
        }
        Err(refusal) => refused(refusal),
    }
}

// The summary of another store, added to that of the stores before it: SHAPE, MANY.
pub fn chess_join_summary(summary: &mut [u64], more: &[u64]) -> Code
    ensures { SummaryJoined summary.old more.now result summary.new }
{
    let answer = store_joined::join(summary, more);
    match answer {
        Ok(()) => GIVEN,
        Err(refusal) => refused(refusal),
    }
}
