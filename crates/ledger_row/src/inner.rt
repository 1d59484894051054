// The rows of a ledger: total, and no doors. Each row is made whole before it is put, so that with too little room nothing changes.
ghost use Rattle.std.specs.Prelude.{◌≡◌, ◌≤◌, length};
ghost use Rattle.score.specs.Answers.{scored as Answers·scored};
ghost use Rattle.text_out.specs.Text.{Puts, Adds};
ghost use Rattle.ledger_row.specs.Row.{refused_row, loaded_row};
ghost use Rattle.ledger_row.specs.Promises.{PutsSaid, PutsRefused, Short};

use crate::Row;
use crate::words::{number, put, shown, spaced};
use position::State;
use refusal::Refusal;
use score::Scored;

// No row of a line is longer, whatever its numbers.
const LONGEST: usize = 64;

fn wide(n: u8) -> u64
    ensures { result ≡ n }
{
    n as u64
}

fn write_refused(out: &mut [u8], line: u64, refusal: u8) -> usize
    requires { 64 ≤ length out.old }
    ensures { Adds out.old 0 (refused_row line refusal) out.new result }
{
    let a = spaced(out, 0, line);
    let b = put(out, a, b"refused ");
    let c = number(out, b, wide(refusal));
    put(out, c, b"\n")
}

fn write_loaded(out: &mut [u8], line: u64, half: u8, scored: Result<Scored, Refusal>) -> usize
    requires { (64 ≤ length out.old) × Short scored }
    ensures { Adds out.old 0 (loaded_row line half (Answers·scored scored)) out.new result }
{
    let a = spaced(out, 0, line);
    let b = spaced(out, a, wide(half));
    let c = shown(out, b, scored);
    put(out, c, b"\n")
}

// A row with half points and what is shown of the score.
fn loaded(
    line: u64,
    half: u8,
    scored: Result<Scored, Refusal>,
    out: &mut [u8],
    at: usize,
) -> Option<usize>
    requires { Short scored }
    ensures { Puts out.old out.new at (loaded_row line half (Answers·scored scored)) result }
{
    let mut row = [0u8; LONGEST];
    let end = write_loaded(&mut row, line, half, scored);
    text_out::put(out, at, &row[..end])
}

// The row of a line that is refused.
pub fn refused(line: u64, refusal: Refusal, out: &mut [u8], at: usize) -> Option<usize>
    ensures { PutsRefused out.old out.new at line refusal result }
{
    let mut row = [0u8; LONGEST];
    let end = write_refused(&mut row, line, refusal.number());
    text_out::put(out, at, &row[..end])
}

// The row of what a reader said, whether of a line or of a record.
pub fn row(
    line: u64,
    read: Result<(State, u8), Refusal>,
    bitboards: &[u64],
    out: &mut [u8],
    at: usize,
) -> Row
    ensures { PutsSaid out.old out.new at line read bitboards.now result }
{
    match read {
        Err(refusal) => Row {
            placed: refused(line, refusal, out, at),
            loaded: false,
        },
        Ok((state, half)) => {
            let scored = score::inner::eval(bitboards, state);
            Row {
                placed: loaded(line, half, scored, out, at),
                loaded: true,
            }
        }
    }
}
