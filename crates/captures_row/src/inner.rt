// A capture's row, the row of the stopping point and the last row: total. Each is made whole before it is put, so that with too little room nothing changes.
ghost use Rattle.std.specs.Prelude.{◌≡◌, ◌≤◌, length};
ghost use Rattle.text_out.specs.Text.{Adds};
ghost use Rattle.exchange_value.specs.Answers.{stopped};
ghost use Rattle.captures_row.specs.Rows.{capture_row, stop_row, counts_row};
ghost use Rattle.captures_row.specs.Promises.{PutsCapture, PutsStop, PutsCounts};

use crate::words::{followed, kind_word, named, put, square, stop_word, worth_word};

// No row is longer, whatever its numbers.
const LONGEST: usize = 84;

fn wide(n: u16) -> u64
    ensures { result ≡ n }
{
    n as u64
}

fn write_capture(out: &mut [u8], line: u64, from: u8, kind: u8, taken: u64) -> usize
    requires { 84 ≤ length out.old }
    ensures { Adds out.old 0 (capture_row line from kind taken) out.new result }
{
    let a = followed(out, 0, line, b" ");
    let b = square(out, a, from);
    let c = kind_word(out, b, kind);
    followed(out, c, taken, b"\n")
}

// The row of a capture: the square that it is made from, the kind that makes it, the value that it takes.
pub fn capture(
    line: u64,
    from: u8,
    kind: u8,
    taken: u16,
    out: &mut [u8],
    at: usize,
) -> Option<usize>
    ensures { PutsCapture out.old out.new at line from kind taken result }
{
    let mut row = [0u8; LONGEST];
    let end = write_capture(&mut row, line, from, kind, wide(taken));
    text_out::put(out, at, &row[..end])
}

fn write_stop(out: &mut [u8], line: u64, stop: Option<usize>, worth: i32) -> usize
    requires { 84 ≤ length out.old }
    ensures { Adds out.old 0 (stop_row line (stopped stop) worth) out.new result }
{
    let a = followed(out, 0, line, b" ");
    let b = stop_word(out, a, stop);
    let c = worth_word(out, b, worth);
    put(out, c, b"\n")
}

// The row of where an exchange stops and what it is worth.
pub fn stop(line: u64, stop: Option<usize>, worth: i32, out: &mut [u8], at: usize) -> Option<usize>
    ensures { PutsStop out.old out.new at line stop worth result }
{
    let mut row = [0u8; LONGEST];
    let end = write_stop(&mut row, line, stop, worth);
    text_out::put(out, at, &row[..end])
}

fn write_counts(out: &mut [u8], lines: u64, told: u64, refused: u64) -> usize
    requires { 84 ≤ length out.old }
    ensures { Adds out.old 0 (counts_row lines told refused) out.new result }
{
    let a = named(out, 0, b"lines ", lines);
    let b = named(out, a, b" told ", told);
    let c = named(out, b, b" refused ", refused);
    put(out, c, b"\n")
}

// The last row.
pub fn counts(lines: u64, told: u64, refused: u64, out: &mut [u8], at: usize) -> Option<usize>
    ensures { PutsCounts out.old out.new at lines told refused result }
{
    let mut row = [0u8; LONGEST];
    let end = write_counts(&mut row, lines, told, refused);
    text_out::put(out, at, &row[..end])
}
