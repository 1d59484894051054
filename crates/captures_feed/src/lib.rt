// The tool that tells exchanges as a machine over bytes: any number of bytes at a time go in, whole rows come out. Its counts, its answers and what
// it refuses are the ledger's.
#![tactic(auto)]

ghost use Rattle.std.specs.Prelude.{◌≡◌, [], ◌+◌, ◌^◌, ◌≤◌, ◌<◌, length};
ghost use Rattle.text_out.specs.Text.{Adds};
ghost use Rattle.ledger_feed.specs.Machine.{at, tally as tally_of};
ghost use Rattle.ledger_feed.specs.Promises.{MakesState};
ghost use Rattle.ledger_finish.specs.Promises.{last_lines};
ghost use Rattle.captures_feed.specs.Machine.{finished_told};
ghost use Rattle.captures_feed.specs.Promises.{TellsQuestions, TellsLast, ReadyLine, CountsQuestion, ReadyChunk, TakesChunk};

use captures_close::ROOM;
use exchange_start::Mode;
use ledger_feed::{SoFar, Unwritten, countable};
use ledger_finish::unfinished;
use line_cut::{Begun, LINE};
use refusal::Refusal;

// The room that the rows of a last question and the counts take at most.
const LAST: usize = 2132;

// How many questions were told and refused, and how many bytes of their rows are written.
#[derive(Clone, Copy)]
pub struct Written {
    pub loaded: u64,
    pub refused: u64,
    pub wrote: usize,
}

fn tally(n: u64, holds: bool) -> u64
    requires { n + 1 < 2 ^ 64 }
    ensures { result ≡ tally_of n holds }
{
    if holds { n + 1 } else { n }
}

fn made(held: usize, cr: bool, loaded: u64, refused: u64) -> SoFar
    ensures { MakesState held cr loaded refused result }
{
    SoFar {
        held,
        cr,
        loaded,
        refused,
    }
}

// The rows of a line, where one ended.
fn counted(
    mode: Mode,
    written: Written,
    line: &[u8],
    ended: bool,
    size: usize,
    out: &mut [u8],
) -> Written
    requires { ReadyLine written ended out.old }
    ensures { CountsQuestion mode written line.now ended size out.old result out.new }
{
    let loaded = written.loaded;
    let refused = written.refused;
    let from = written.wrote;
    if !ended {
        return Written {
            loaded,
            refused,
            wrote: from,
        };
    }
    let row = captures_close::close(mode, line, size, loaded + refused + 1, out, from);
    let placed = row.placed;
    let is_told = row.loaded;
    let wrote = placed.unwrap_or(from);
    Written {
        loaded: tally(loaded, is_told),
        refused: tally(refused, !is_told),
        wrote,
    }
}

// The bytes of a chunk, where there is room for their rows: from line's end to line's end.
fn take(
    mode: Mode,
    state: SoFar,
    line: &mut [u8],
    chunk: &[u8],
    out: &mut [u8],
) -> Result<(SoFar, usize), Unwritten>
    requires { ReadyChunk state line.old chunk.now out.old }
    ensures { TakesChunk mode state line.old chunk.now out.old result line.new out.new }
{
    let mut begun = Begun {
        held: state.held,
        cr: state.cr,
    };
    let mut written = Written {
        loaded: state.loaded,
        refused: state.refused,
        wrote: 0,
    };
    let mut at = 0;
    // A loop by hand: `at` moves on by whole lines.
    while at < chunk.len() {
        let cut = line_cut::next(begun, line, chunk, at);
        at = cut.at;
        let next = cut.begun;
        begun = next;
        written = counted(mode, written, line, cut.ended, cut.size, out);
    }
    Ok((
        made(begun.held, begun.cr, written.loaded, written.refused),
        written.wrote,
    ))
}

// Takes a chunk of any size: rows for each line that ends in it, by its exchange in a mode. It needs 2,048 bytes of room for each of them.
pub fn feed(
    mode: Mode,
    state: SoFar,
    line: &mut [u8],
    chunk: &[u8],
    out: &mut [u8],
) -> Result<(SoFar, usize), Unwritten>
    ensures { TellsQuestions mode state line.old chunk.now out.old result line.new out.new }
{
    if line.len() != LINE {
        return Err(Unwritten::Refused(Refusal::Shape));
    }
    let ends = line_cut::ends(chunk);
    if !countable(state.loaded, state.refused, ends) {
        return Err(Unwritten::Many);
    }
    if out.len() / ROOM < ends {
        return Err(Unwritten::Full);
    }
    take(mode, state, line, chunk, out)
}

// The rows of the last question, if it has no LF, and the counts.
fn last_rows(mode: Mode, state: SoFar, line: &[u8], out: &mut [u8]) -> usize
    requires { (2132 ≤ length out.old) × (last_lines state < 2 ^ 64) }
    ensures { Adds out.old 0 (finished_told mode (at state line.now [])) out.new result }
{
    let none = Written {
        loaded: state.loaded,
        refused: state.refused,
        wrote: 0,
    };
    let held = state.held;
    let all = counted(mode, none, line, 0 < held, held, out);
    captures_row::inner::counts(
        all.loaded + all.refused,
        all.loaded,
        all.refused,
        out,
        all.wrote,
    )
    .unwrap_or(all.wrote)
}

// The end of the input: the rows of a last question with no LF, and the counts.
pub fn finish(mode: Mode, state: SoFar, line: &[u8], out: &mut [u8]) -> Result<usize, Unwritten>
    ensures { TellsLast mode state line.now out.old result out.new }
{
    if line.len() != LINE {
        return Err(Unwritten::Refused(Refusal::Shape));
    }
    if !countable(state.loaded, state.refused, unfinished(state.held)) {
        return Err(Unwritten::Many);
    }
    let mut rows = [0u8; LAST];
    let end = last_rows(mode, state, line, &mut rows);
    let placed = text_out::put(out, 0, &rows[..end]);
    match placed {
        Some(wrote) => Ok(wrote),
        None => Err(Unwritten::Full),
    }
}
