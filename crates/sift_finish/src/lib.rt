// The end of an input that was sifted: what a last line with no LF makes, or its row, and the ledger's last row.
#![tactic(auto)]

ghost use Rattle.sift_finish.specs.Last.{ReadyToEnd, EndsSifted, FinishesSifted};

use ledger_feed::{SoFar, Unwritten};
use refusal::Refusal;
use sift_form::Form;

// The room that a last line's row and the last row take at most.
const ROWS: usize = 116;

// Where there is room: the last line, if it has no LF, and the last row.
fn last(
    state: SoFar,
    form: Form,
    line: &[u8],
    made: &mut [u8],
    rows: &mut [u8],
) -> Result<(usize, usize), Unwritten>
    requires { ReadyToEnd state form made.old rows.old }
    ensures { EndsSifted state form line.now made.old rows.old result made.new rows.new }
{
    if state.held == 0 {
        let lines = state.loaded + state.refused;
        let end = ledger_totals::last(lines, state.loaded, state.refused, rows, 0).unwrap_or(0);
        return Ok((0, end));
    }
    let lines = state.loaded + state.refused + 1;
    let closed = sift_close::close(form, line, state.held, lines, made, 0, rows, 0);
    let loaded = state.loaded + closed.loaded;
    let refused = state.refused + closed.refused;
    let end = ledger_totals::last(lines, loaded, refused, rows, closed.rows).unwrap_or(closed.rows);
    Ok((closed.made, end))
}

// The end of the input. It needs the room of its form where a line is unfinished, and 116 bytes for rows. How many bytes were made and how many bytes of
// rows written, or why none.
pub fn finish(
    state: SoFar,
    form: Form,
    line: &[u8],
    made: &mut [u8],
    rows: &mut [u8],
) -> Result<(usize, usize), Unwritten>
    ensures { FinishesSifted state form line.now made.old rows.old result made.new rows.new }
{
    if line.len() != line_cut::LINE {
        return Err(Unwritten::Refused(Refusal::Shape));
    }
    let lines = ledger_finish::unfinished(state.held);
    if !ledger_feed::countable(state.loaded, state.refused, lines) {
        return Err(Unwritten::Many);
    }
    if made.len() / sift_form::room(form) < lines {
        return Err(Unwritten::Full);
    }
    if rows.len() < ROWS {
        return Err(Unwritten::Full);
    }
    last(state, form, line, made, rows)
}
