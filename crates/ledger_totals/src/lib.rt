// The rows of totals: a ledger's last one, and that of a collection's error. Each is made whole before it is put, so that with too little
// room nothing changes.
#![tactic(auto)]

ghost use Rattle.std.specs.Prelude.{◌++◌, ◌+◌, ◌≤◌, length};
ghost use Rattle.text_out.specs.Text.{Adds, decimal_of};
ghost use Rattle.ledger_totals.specs.Totals.{last_row, PutsLast};
ghost use Rattle.ledger_totals.specs.Error.{places_of, mean_word, error_row, PutsError};

// They are never longer, whatever their numbers.
const LONGEST: usize = 84;

const LONGEST_ERROR: usize = 164;

// So many millionths of millionths are one point squared.
const POINT: u64 = 1_000_000_000_000;

// A number and the word before it.
fn named(out: &mut [u8], at: usize, word: &[u8], n: u64) -> usize
    requires { at + (length word.now + 20) ≤ length out.old }
    ensures { Adds out.old at (word.now ++ decimal_of n) out.new result }
{
    let end = text_out::put(out, at, word).unwrap_or(at);
    text_out::decimal(out, end, n).unwrap_or(end)
}

fn write(out: &mut [u8], lines: u64, loaded: u64, refused: u64) -> usize
    requires { 84 ≤ length out.old }
    ensures { Adds out.old 0 (last_row lines loaded refused) out.new result }
{
    let a = named(out, 0, b"lines ", lines);
    let b = named(out, a, b" loaded ", loaded);
    let c = named(out, b, b" refused ", refused);
    text_out::put(out, c, b"\n").unwrap_or(c)
}

pub fn last(lines: u64, loaded: u64, refused: u64, out: &mut [u8], at: usize) -> Option<usize>
    ensures { PutsLast out.old out.new at lines loaded refused result }
{
    let mut row = [0u8; LONGEST];
    let end = write(&mut row, lines, loaded, refused);
    text_out::put(out, at, &row[..end])
}

// Points squared to twelve places: the digits of a number of thirteen, of which the point takes the first one's place.
fn places(out: &mut [u8], at: usize, n: u64) -> usize
    requires { at + 40 ≤ length out.old }
    ensures { Adds out.old at (places_of n) out.new result }
{
    let whole = text_out::decimal(out, at, n / POINT).unwrap_or(at);
    let end = text_out::decimal(out, whole, POINT + n % POINT).unwrap_or(whole);
    text_out::put(out, whole, b".");
    end
}

fn mean(out: &mut [u8], at: usize, scored: u64, sum: u64) -> usize
    requires { at + 46 ≤ length out.old }
    ensures { Adds out.old at (mean_word scored sum) out.new result }
{
    let next = text_out::put(out, at, b" mean ").unwrap_or(at);
    if scored == 0 {
        return text_out::put(out, next, b"none").unwrap_or(next);
    }
    places(out, next, sum / scored)
}

fn write_error(out: &mut [u8], scored: u64, apart: u64, refused: u64, sum: u64) -> usize
    requires { 164 ≤ length out.old }
    ensures { Adds out.old 0 (error_row scored apart refused sum) out.new result }
{
    let a = named(out, 0, b"scored ", scored);
    let b = named(out, a, b" apart ", apart);
    let c = named(out, b, b" refused ", refused);
    let d = named(out, c, b" sum ", sum);
    let e = mean(out, d, scored, sum);
    text_out::put(out, e, b"\n").unwrap_or(e)
}

// The row of a collection's error: lines with a score, those apart, those refused, the sum and its mean.
pub fn error(
    scored: u64,
    apart: u64,
    refused: u64,
    sum: u64,
    out: &mut [u8],
    at: usize,
) -> Option<usize>
    ensures { PutsError out.old out.new at scored apart refused sum result }
{
    let mut row = [0u8; LONGEST_ERROR];
    let end = write_error(&mut row, scored, apart, refused, sum);
    text_out::put(out, at, &row[..end])
}
