// The doors for C and Rust to expected scores and to the sum over a collection, fed in pieces of any size. Each but the first gives 0, or a
// refusal and changes nothing. What is kept between calls is lent as numbers, all 0 before anything was read.
#![tactic(auto)]

ghost use Rattle.std.specs.Prelude.{◌≡◌};
ghost use Rattle.abi_errors.specs.Numbers.{totals_from, total_numbers, gathered_from, gathered_numbers, answer_from};
ghost use Rattle.abi_errors.specs.Promises.{ExpectsScore, AddsError, FeedsError, EndsError};
ghost use Rattle.score.specs.Answers.{scored as scoredPaper};

use abi_codes::{Code, GIVEN, flag, refused};
use line_cut::Begun;
use refusal::Refusal;
use score::Scored;
use score_collection::{Gathered, Sum};
use score_errors::Totals;

// Lines with a score, lines apart, the sum.
pub const TOTALS: usize = 3;

// Bytes held of the line that has not ended, whether the last was a CR; the totals; refused lines; whether a count had no room.
pub const STATE: usize = 7;

fn totals_of(numbers: &[u64; TOTALS]) -> Totals
    ensures { result ≡ totals_from numbers.now }
{
    Totals {
        scored: numbers[0],
        apart: numbers[1],
        sum: numbers[2],
    }
}

fn numbers_of(totals: Totals) -> [u64; TOTALS]
    ensures { result ≡ total_numbers totals }
{
    [totals.scored, totals.apart, totals.sum]
}

fn gathered_of(state: &[u64; STATE]) -> Gathered
    ensures { result ≡ gathered_from state.now }
{
    Gathered {
        begun: Begun {
            held: state[0] as usize,
            cr: state[1] != 0,
        },
        sum: Sum {
            totals: Totals {
                scored: state[2],
                apart: state[3],
                sum: state[4],
            },
            refused: state[5],
            full: state[6] != 0,
        },
    }
}

fn state_of(gathered: Gathered) -> [u64; STATE]
    ensures { result ≡ gathered_numbers gathered }
{
    let begun = gathered.begun;
    let sum = gathered.sum;
    let totals = sum.totals;
    [
        begun.held as u64,
        flag(begun.cr),
        totals.scored,
        totals.apart,
        totals.sum,
        sum.refused,
        flag(sum.full),
    ]
}

// A line's answer: its score, or that it has none, for which `over` stands as well as a verdict would.
fn answer_of(some: bool, score: i16) -> Result<Scored, Refusal>
    ensures { scoredPaper result ≡ answer_from some score }
{
    if some {
        return Ok(Scored::Score(score));
    }
    Err(Refusal::Score)
}

// The expected result of a score, in millionths of a point.
pub fn chess_expected(score: i16) -> u32
    ensures { ExpectsScore score result }
{
    score_expected::expected(score)
}

// A line more in the totals, by its side to move, whether it has a score, the score, and its half points: SHAPE (the side), RESULT, MANY.
pub fn chess_error_add(
    totals: &mut [u64; TOTALS],
    side: u8,
    some: bool,
    score: i16,
    half: u8,
) -> Code
    ensures { AddsError totals.old side some score half result totals.new }
{
    let answer = answer_of(some, score);
    let added = score_errors::add(totals_of(totals), side, answer, half);
    match added {
        Ok(next) => {
            *totals = numbers_of(next);
            GIVEN
        }
        Err(refusal) => refused(refusal),
    }
}

// The lines that end in a piece: SHAPE (not 256 bytes for the line).
pub fn chess_error_feed(state: &mut [u64; STATE], line: &mut [u8], piece: &[u8]) -> Code
    ensures { FeedsError state.old line.old piece.now result state.new line.new }
{
    let fed = score_collection::feed(gathered_of(state), line, piece);
    match fed {
        Ok(next) => {
            *state = state_of(next);
            GIVEN
        }
        Err(refusal) => refused(refusal),
    }
}

// The end of the input: the totals, and in `lines` how many were refused. SHAPE, MANY.
pub fn chess_error_end(
    state: &[u64; STATE],
    line: &[u8],
    totals: &mut [u64; TOTALS],
    lines: &mut u64,
) -> Code
    ensures { EndsError state.now line.now totals.old lines.old result totals.new lines.new }
{
    let ended = score_collection::end(gathered_of(state), line);
    match ended {
        Ok((sums, count)) => {
            *totals = numbers_of(sums);
            *lines = count;
            GIVEN
        }
        Err(refusal) => refused(refusal),
    }
}
