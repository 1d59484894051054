// The row of a line that ends, by a buffer that holds the line's first bytes: the line is read, judged by the profile, and what it says
// is handed on.
#![tactic(auto)]

ghost use Rattle.ledger_close.specs.Ended.{Closes};

use ledger_row::Row;
use line_profile::Profile;

// A line of so many bytes is LONG where the buffer does not hold it whole.
pub fn close(
    profile: Profile,
    line: &[u8],
    size: usize,
    number: u64,
    out: &mut [u8],
    at: usize,
) -> Row
    ensures { Closes profile out.old out.new at number line.now size result }
{
    let read = line_held::read(line, size);
    let answer = read.answer;
    let bitboards = read.bitboards;
    let judged = line_profile::inner::under(profile, answer, &bitboards);
    ledger_row::inner::row(number, judged, &bitboards, out, at)
}
