// The row of a collection's error where the input ends: the collection's totals, or why there are none.
#![tactic(auto)]

ghost use Rattle.score_row.specs.Rows.{PutsTotals, WritesError};

use refusal::Refusal;
use score_collection::Gathered;
use score_errors::Totals;

fn put(totals: Totals, refused: u64, out: &mut [u8]) -> Result<Option<usize>, Refusal>
    ensures { PutsTotals totals refused out.old result out.new }
{
    Ok(ledger_totals::error(totals.scored, totals.apart, refused, totals.sum, out, 0))
}

// The end of the input: an unfinished line ends there, and the row follows. How many bytes of it were written, none where there is too little room:
// SHAPE, MANY.
pub fn write(gathered: Gathered, line: &[u8], out: &mut [u8]) -> Result<Option<usize>, Refusal>
    ensures { WritesError gathered line.now out.old result out.new }
{
    let (totals, refused) = score_collection::end(gathered, line)?;
    put(totals, refused, out)
}
