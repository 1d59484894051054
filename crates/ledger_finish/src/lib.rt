// The end of the input: the row of a last line with no LF, and the totals. How many bytes were written, or why none.
#![tactic(auto)]

ghost use Rattle.std.specs.Prelude.{[], ◌^◌, ◌≤◌, ◌<◌, length};
ghost use Rattle.text_out.specs.Text.{Adds};
ghost use Rattle.ledger_feed.specs.Machine.{at};
ghost use Rattle.ledger_finish.specs.Last.{finished};
ghost use Rattle.ledger_finish.specs.Promises.{CountsUnfinished, last_lines, Finishes};

use ledger_feed::{SoFar, Unwritten};
use line_profile::Profile;
use refusal::Refusal;

// The room that a last line's row and the totals take at most.
const ROWS: usize = 116;

// How many lines are unfinished: one where some of it was held.
pub fn unfinished(held: usize) -> usize
    ensures { CountsUnfinished held result }
{
    if 0 < held { 1 } else { 0 }
}

// The row of the last line, if it has no LF, and the totals.
fn last_rows(profile: Profile, state: SoFar, line: &[u8], out: &mut [u8]) -> usize
    requires { (116 ≤ length out.old) × (last_lines state < 2 ^ 64) }
    ensures { Adds out.old 0 (finished profile (at state line.now [])) out.new result }
{
    if state.held == 0 {
        return ledger_totals::last(
            state.loaded + state.refused,
            state.loaded,
            state.refused,
            out,
            0,
        )
        .unwrap_or(0);
    }
    let lines = state.loaded + state.refused + 1;
    let row = ledger_close::close(profile, line, state.held, lines, out, 0);
    let placed = row.placed;
    let is_loaded = row.loaded;
    let next = placed.unwrap_or(0);
    if is_loaded {
        return ledger_totals::last(lines, state.loaded + 1, state.refused, out, next).unwrap_or(
            next,
        );
    }
    ledger_totals::last(lines, state.loaded, state.refused + 1, out, next).unwrap_or(next)
}

// The end of the input: the row of a last line with no LF, and the totals.
pub fn finish(
    profile: Profile,
    state: SoFar,
    line: &[u8],
    out: &mut [u8],
) -> Result<usize, Unwritten>
    ensures { Finishes profile state line.now out.old result out.new }
{
    if line.len() != line_cut::LINE {
        return Err(Unwritten::Refused(Refusal::Shape));
    }
    if !ledger_feed::countable(state.loaded, state.refused, unfinished(state.held)) {
        return Err(Unwritten::Many);
    }
    let mut rows = [0u8; ROWS];
    let end = last_rows(profile, state, line, &mut rows);
    let placed = text_out::put(out, 0, &rows[..end]);
    match placed {
        Some(wrote) => Ok(wrote),
        None => Err(Unwritten::Full),
    }
}
