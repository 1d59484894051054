// The doors to the sums and the summaries of parts, joined, exported for C and Rust: each calls the function of its name in `abi_joins`,
// and promises what that promises.
#![tactic(auto)]

ghost use Rattle.abi_joins.specs.Promises.{ErrorsJoined, SummaryJoined};

use abi_codes::Code;
use abi_joins::TOTALS;

#[unsafe(no_mangle)]
pub extern "C" fn chess_error_join(
    totals: &mut [u64; TOTALS],
    lines: &mut u64,
    more: &[u64; TOTALS],
    others: u64,
) -> Code
    ensures { ErrorsJoined totals.old lines.old more.now others result totals.new lines.new }
{
    abi_joins::chess_error_join(totals, lines, more, others)
}

#[unsafe(no_mangle)]
pub extern "C" fn chess_join_summary(summary: &mut [u64], more: &[u64]) -> Code
    ensures { SummaryJoined summary.old more.now result summary.new }
{
    abi_joins::chess_join_summary(summary, more)
}
