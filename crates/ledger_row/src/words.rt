// The words of a row, put into a buffer that has room for them.
ghost use Rattle.std.specs.Prelude.{◌≡◌, ◌+◌, ◌≤◌, length};
ghost use Rattle.score.specs.Answers.{scored as Answers·scored};
ghost use Rattle.text_out.specs.Text.{Adds, decimal_of, signed_of};
ghost use Rattle.ledger_row.specs.Row.{spaced as Row·spaced, shown_of};
ghost use Rattle.ledger_row.specs.Promises.{Short};

use refusal::Refusal;
use score::Scored;

pub(crate) fn put(out: &mut [u8], at: usize, s: &[u8]) -> usize
    ensures { Adds out.old at s.now out.new result }
{
    text_out::put(out, at, s).unwrap_or(at)
}

pub(crate) fn number(out: &mut [u8], at: usize, n: u64) -> usize
    ensures { Adds out.old at (decimal_of n) out.new result }
{
    text_out::decimal(out, at, n).unwrap_or(at)
}

fn wide(n: i16) -> i64
    ensures { result ≡ n }
{
    n as i64
}

fn signed(out: &mut [u8], at: usize, n: i16) -> usize
    ensures { Adds out.old at (signed_of n) out.new result }
{
    text_out::signed(out, at, wide(n)).unwrap_or(at)
}

// A number and the space after it.
pub(crate) fn spaced(out: &mut [u8], at: usize, n: u64) -> usize
    requires { at + 21 ≤ length out.old }
    ensures { Adds out.old at (Row·spaced n) out.new result }
{
    let end = number(out, at, n);
    put(out, end, b" ")
}

// The score for the side to move or a word.
pub(crate) fn shown(out: &mut [u8], at: usize, scored: Result<Scored, Refusal>) -> usize
    requires { Short scored }
    ensures { Adds out.old at (shown_of (Answers·scored scored)) out.new result }
{
    match scored {
        Ok(Scored::Lost) => put(out, at, b"lost"),
        Ok(Scored::Won) => put(out, at, b"won"),
        Ok(Scored::Drawn) => put(out, at, b"drawn"),
        Ok(Scored::Score(n)) => signed(out, at, n),
        Err(_) => put(out, at, b"over"),
    }
}
