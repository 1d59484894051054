// The words of a row, put into a buffer that has room for them.
ghost use Rattle.std.specs.Prelude.{◌≡◌, ◌++◌, ◌+◌, ◌≤◌, length};
ghost use Rattle.text_out.specs.Text.{Adds, decimal_of};
ghost use Rattle.exchange_value.specs.Answers.{stopped};
ghost use Rattle.captures_row.specs.Rows.{square_field, kind_field, stop_field, worth_field};

pub(crate) fn put(out: &mut [u8], at: usize, s: &[u8]) -> usize
    ensures { Adds out.old at s.now out.new result }
{
    text_out::put(out, at, s).unwrap_or(at)
}

pub(crate) fn number(out: &mut [u8], at: usize, n: u64) -> usize
    ensures { Adds out.old at (decimal_of n) out.new result }
{
    text_out::decimal(out, at, n).unwrap_or(at)
}

// A number and what follows it.
pub(crate) fn followed(out: &mut [u8], at: usize, n: u64, by: &[u8]) -> usize
    requires { at + (20 + length by.now) ≤ length out.old }
    ensures { Adds out.old at (decimal_of n ++ by.now) out.new result }
{
    let end = number(out, at, n);
    put(out, end, by)
}

// A number and the word before it.
pub(crate) fn named(out: &mut [u8], at: usize, word: &[u8], n: u64) -> usize
    requires { at + (length word.now + 20) ≤ length out.old }
    ensures { Adds out.old at (word.now ++ decimal_of n) out.new result }
{
    let end = put(out, at, word);
    number(out, end, n)
}

pub(crate) fn square(out: &mut [u8], at: usize, s: u8) -> usize
    ensures { Adds out.old at (square_field s) out.new result }
{
    let name = [b'a' + s % 8, b'1' + s / 8, b' '];
    put(out, at, &name)
}

pub(crate) fn kind_word(out: &mut [u8], at: usize, kind: u8) -> usize
    ensures { Adds out.old at (kind_field kind) out.new result }
{
    match kind {
        0 => put(out, at, b"pawn "),
        1 => put(out, at, b"knight "),
        2 => put(out, at, b"bishop "),
        3 => put(out, at, b"rook "),
        4 => put(out, at, b"queen "),
        _ => put(out, at, b"king "),
    }
}

fn count(n: usize) -> u64
    ensures { result ≡ n }
{
    n as u64
}

// The point before which the exchange stops.
pub(crate) fn stop_word(out: &mut [u8], at: usize, stop: Option<usize>) -> usize
    requires { at + 25 ≤ length out.old }
    ensures { Adds out.old at (stop_field (stopped stop)) out.new result }
{
    match stop {
        None => put(out, at, b"played out"),
        Some(i) => named(out, at, b"stop ", count(i)),
    }
}

fn wide(n: i32) -> i64
    ensures { result ≡ n }
{
    n as i64
}

pub(crate) fn worth_word(out: &mut [u8], at: usize, worth: i32) -> usize
    requires { at + 28 ≤ length out.old }
    ensures { Adds out.old at (worth_field worth) out.new result }
{
    let end = put(out, at, b" worth ");
    text_out::signed(out, end, wide(worth)).unwrap_or(end)
}
