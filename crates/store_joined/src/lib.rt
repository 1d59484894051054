// The summaries of two stores put together: the summary of one store with the other behind it.
#![tactic(auto)]

ghost use Rattle.std.specs.Prelude.{◌≡◌, length};
ghost use Rattle.store_joined.specs.Summaries.{summary_of_both};
ghost use Rattle.store_joined.specs.Promises.{JoinsSummaries};

use refusal::Refusal;
use store_counts::{RECORDS, SUMMARY};

// As many records as a summary counts.
const MOST: u64 = 10_000_000;

// Each sum of both. Sums wrap.
fn add(summary: &mut [u64], more: &[u64])
    requires { (length summary.old ≡ 770) × (length more.now ≡ 770) }
    ensures { summary.new ≡ summary_of_both summary.old more.now }
{
    for place in 0..SUMMARY {
        summary[place] = std::num::wrapping_add_u64(summary[place], more[place]);
    }
}

// The summary of another store added: SHAPE, MANY.
pub fn join(summary: &mut [u64], more: &[u64]) -> Result<(), Refusal>
    ensures { JoinsSummaries summary.old more.now result summary.new }
{
    if summary.len() != SUMMARY {
        return Err(Refusal::Shape);
    }
    if more.len() != SUMMARY {
        return Err(Refusal::Shape);
    }
    let records = summary[RECORDS];
    let added = more[RECORDS];
    if MOST < records {
        return Err(Refusal::Many);
    }
    if MOST - records < added {
        return Err(Refusal::Many);
    }
    add(summary, more);
    Ok(())
}
