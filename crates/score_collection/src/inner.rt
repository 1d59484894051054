// The same with the table of expected scores lent: total, and no door.
ghost use Rattle.std.specs.Prelude.{◌≡◌};
ghost use Rattle.score_collection.specs.Gather.{refused_more};
ghost use Rattle.score_collection.specs.Answers.{note_with};
ghost use Rattle.score_collection.specs.Promises.{ClosesLine, CountsLine, TakesPiece, Comes};

use crate::{Gathered, Sum};
use refusal::Refusal;
use score_errors::Totals;
use score_expected::COUNT;

// The largest count.
const MOST: u64 = 0xffff_ffff_ffff_ffff;

// A line more that was refused.
fn refused(sum: Sum) -> Sum
    ensures { result ≡ refused_more sum }
{
    let n = sum.refused;
    let totals = sum.totals;
    if n == MOST {
        return Sum {
            totals,
            refused: n,
            full: true,
        };
    }
    let lines = n + 1;
    Sum {
        totals,
        refused: lines,
        full: sum.full,
    }
}

// What adding a line came to.
fn note(sum: Sum, added: Result<Totals, Refusal>) -> Sum
    ensures { result ≡ note_with sum added }
{
    let Ok(totals) = added else {
        let totals = sum.totals;
        return Sum {
            totals,
            refused: sum.refused,
            full: true,
        };
    };
    Sum {
        totals,
        refused: sum.refused,
        full: sum.full,
    }
}

// A line of so many bytes, by a buffer that holds its first ones: read, scored and added, or counted as refused.
fn read_line(sum: Sum, line: &[u8], size: usize, expected: &[u32; COUNT]) -> Sum
    ensures { ClosesLine expected.now sum line.now size result }
{
    let read = line_held::read(line, size);
    let answer = read.answer;
    match answer {
        Err(_) => refused(sum),
        Ok((state, half)) => {
            let bitboards = read.bitboards;
            let scored = score::inner::eval(&bitboards, state);
            let totals = sum.totals;
            note(
                sum,
                score_errors::inner::add(totals, state.side, scored, half, expected),
            )
        }
    }
}

// The same where a line ended.
pub fn counted(sum: Sum, line: &[u8], ended: bool, size: usize, expected: &[u32; COUNT]) -> Sum
    ensures { CountsLine expected.now sum line.now ended size result }
{
    if ended {
        return read_line(sum, line, size, expected);
    }
    sum
}

// A piece of any size, from line's end to line's end.
pub fn take(gathered: Gathered, line: &mut [u8], chunk: &[u8], expected: &[u32; COUNT]) -> Gathered
    ensures { TakesPiece expected.now gathered line.old chunk.now result line.new }
{
    let mut begun = gathered.begun;
    let mut sum = gathered.sum;
    let mut at = 0;
    // A loop by hand: `at` moves on by whole lines.
    while at < chunk.len() {
        let cut = line_cut::next(begun, line, chunk, at);
        at = cut.at;
        let next = cut.begun;
        begun = next;
        sum = counted(sum, line, cut.ended, cut.size, expected);
    }
    Gathered { begun, sum }
}

// What all lines came to: MANY where one found no room.
pub fn outcome(sum: Sum) -> Result<(Totals, u64), Refusal>
    ensures { Comes sum result }
{
    if sum.full {
        return Err(Refusal::Many);
    }
    let totals = sum.totals;
    Ok((totals, sum.refused))
}
