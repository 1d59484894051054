// The end of a store: the row of a short last piece, and the totals.
#![tactic(auto)]

ghost use Rattle.std.specs.Prelude.{◌^◌, ◌≤◌, ◌<◌, length};
ghost use Rattle.text_out.specs.Text.{Adds};
ghost use Rattle.store_finish.specs.Promises.{store_finished, last_pieces, FinishesStore};

use ledger_feed::Unwritten;
use refusal::Refusal;
use store_record::inner::RECORD;
use store_rows::StoreSoFar;

// The room that a last piece's row and the totals take at most.
const ROWS: usize = 116;

// The row of the last piece, if it is short, and the totals. What it says needs none of its bytes.
fn last_rows(state: StoreSoFar, out: &mut [u8]) -> usize
    requires { (116 ≤ length out.old) × (last_pieces state < 2 ^ 64) }
    ensures { Adds out.old 0 (store_finished state) out.new result }
{
    if state.held == 0 {
        return ledger_totals::last(
            state.loaded + state.refused,
            state.loaded,
            state.refused,
            out,
            0,
        )
        .unwrap_or(0);
    }
    let lines = state.loaded + state.refused + 1;
    let next = ledger_row::inner::refused(lines, Refusal::Length, out, 0).unwrap_or(0);
    ledger_totals::last(lines, state.loaded, state.refused + 1, out, next).unwrap_or(next)
}

// The end of the input: the row of a short last piece, and the totals.
pub fn finish(state: StoreSoFar, out: &mut [u8]) -> Result<usize, Unwritten>
    ensures { FinishesStore state out.old result out.new }
{
    if state.held >= RECORD {
        return Err(Unwritten::Refused(Refusal::Shape));
    }
    if !ledger_feed::countable(
        state.loaded,
        state.refused,
        ledger_finish::unfinished(state.held),
    ) {
        return Err(Unwritten::Many);
    }
    let mut rows = [0u8; ROWS];
    let end = last_rows(state, &mut rows);
    let placed = text_out::put(out, 0, &rows[..end]);
    match placed {
        Some(wrote) => Ok(wrote),
        None => Err(Unwritten::Full),
    }
}
