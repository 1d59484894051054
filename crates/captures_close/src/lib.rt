// The rows of a question that ends, by a buffer that holds its line's first bytes: the line is read, then the move and the order behind it, and the
// exchange is told.
#![tactic(auto)]

ghost use Rattle.std.specs.Prelude.{◌≤◌, length};
ghost use Rattle.text_out.specs.Text.{Adds, Puts};
ghost use Rattle.ledger_row.specs.Promises.{PutsRow};
ghost use Rattle.captures_close.specs.Answered.{AnswersHeld};
ghost use Rattle.captures_close.specs.PrivateColumns.{rows_up_to, listed_rows, checked_rows, Filled, RoomyRows};
ghost use Rattle.refusal.specs.Answer.{answered};

use exchange::inner::Listed;
use exchange_start::Mode;
use exchange_told::Told;
use exchange_value::inner::settle;
use ledger_row::Row;
use ledger_row::inner::refused;

// The room that the rows of a line take at most: 32 captures and the stopping point.
pub const ROOM: usize = 2048;

// A row for each of the first captures.
fn write_captures(
    out: &mut [u8],
    line: u64,
    from: &[u8],
    kind: &[u8],
    taken: &[u16],
    n: usize,
) -> usize
    requires { RoomyRows n out.old from.now kind.now taken.now }
    ensures { Adds out.old 0 (rows_up_to n line from.now kind.now taken.now) out.new result }
{
    let mut at = 0;
    for i in 0..n {
        at = captures_row::inner::capture(line, from[i], kind[i], taken[i], out, at).unwrap_or(at);
    }
    at
}

// All captures, those after the stopping point too, and then the point.
fn write_listed(out: &mut [u8], line: u64, listed: Listed, stop: Option<usize>) -> usize
    requires { (2048 ≤ length out.old) × Filled listed }
    ensures { Adds out.old 0 (listed_rows line listed stop) out.new result }
{
    let from = listed.from;
    let kind = listed.kind;
    let taken = listed.taken;
    let n = listed.count;
    let end = write_captures(out, line, &from, &kind, &taken, n);
    captures_row::inner::stop(line, stop, settle(&taken[..n]), out, end).unwrap_or(end)
}

// They are made whole before they are put, so that with too little room nothing changes.
fn put_listed(
    line: u64,
    listed: Listed,
    stop: Option<usize>,
    out: &mut [u8],
    at: usize,
) -> Option<usize>
    requires { Filled listed }
    ensures { Puts out.old out.new at (listed_rows line listed stop) result }
{
    let mut rows = [0u8; ROOM];
    let end = write_listed(&mut rows, line, listed, stop);
    text_out::put(out, at, &rows[..end])
}

fn put_told(line: u64, told: Told, out: &mut [u8], at: usize) -> Row
    requires { Filled told.listed }
    ensures { PutsRow out.old out.new at (answered told.checked) (checked_rows line told.checked told.listed told.stop) result }
{
    let checked = told.checked;
    let listed = told.listed;
    let stop = told.stop;
    match checked {
        Ok(()) => Row {
            placed: put_listed(line, listed, stop, out, at),
            loaded: true,
        },
        Err(refusal) => Row {
            placed: refused(line, refusal, out, at),
            loaded: false,
        },
    }
}

// A question of so many bytes is LONG where the buffer does not hold it whole.
pub fn close(mode: Mode, line: &[u8], size: usize, number: u64, out: &mut [u8], at: usize) -> Row
    ensures { AnswersHeld mode out.old out.new at number line.now size result }
{
    let read = line_held::read(line, size);
    let answer = read.answer;
    match answer {
        Err(refusal) => Row {
            placed: refused(number, refusal, out, at),
            loaded: false,
        },
        Ok((state, _)) => {
            let bitboards = read.bitboards;
            let board = read.board;
            let asked = captures_question::inner::read(&line[..size]);
            let order = asked.order;
            let told = exchange_told::captures(
                mode, &bitboards, &board, state, &order, asked.from, asked.to,
            );
            put_told(number, told, out, at)
        }
    }
}
