// The same with the table lent: total, and no door.
ghost use Rattle.std.specs.Prelude.{◌≡◌};
ghost use Rattle.chess.specs.Named.{turned_for_black};
ghost use Rattle.score_errors.specs.Errors.{apart_by, error_square, scored_of, apart_of};
ghost use Rattle.score_errors.specs.Promises.{AddsWith};
ghost use Rattle.refusal.specs.Answer.{answered};

use crate::Totals;
use chess::color::{BLACK, WHITE};
use refusal::Refusal;
use score::Scored;
use score_expected::COUNT;
use score_expected::inner::entry;

// As many lines of a kind are counted.
const MOST: u64 = 1_000_000;

// What half a point is in millionths.
const HALF: u64 = 500_000;

// A whole point has two halves.
const WHOLE: u8 = 2;

// The largest sum.
const LARGEST: u64 = 0xffff_ffff_ffff_ffff;

// The score for White, of one for the side to move.
fn turned(side: u8, score: i16) -> i32
    ensures { result ≡ turned_for_black side score }
{
    let z = score as i32;
    if side == WHITE {
        return z;
    }
    -z
}

fn distance(a: u64, b: u64) -> u64
    ensures { result ≡ apart_by a b }
{
    if a < b { b - a } else { a - b }
}

// The squared distance of half points from what was expected.
fn square(half: u8, expected: u32) -> u64
    ensures { result ≡ error_square half expected }
{
    let d = distance(HALF * half as u64, expected as u64);
    d * d
}

// A line more that has a score.
fn scored(totals: Totals, square: u64) -> Result<Totals, Refusal>
    ensures { answered result ≡ scored_of totals square }
{
    let scored = totals.scored;
    let sum = totals.sum;
    if MOST <= scored {
        return Err(Refusal::Many);
    }
    if LARGEST - sum < square {
        return Err(Refusal::Many);
    }
    let lines = scored + 1;
    let summed = sum + square;
    Ok(Totals {
        scored: lines,
        apart: totals.apart,
        sum: summed,
    })
}

// A line more that has a verdict or `over`.
fn apart(totals: Totals) -> Result<Totals, Refusal>
    ensures { answered result ≡ apart_of totals }
{
    let apart = totals.apart;
    if MOST <= apart {
        return Err(Refusal::Many);
    }
    let lines = apart + 1;
    Ok(Totals {
        scored: totals.scored,
        apart: lines,
        sum: totals.sum,
    })
}

// A line more, by whatever table is lent: SHAPE, RESULT, MANY.
pub fn add(
    totals: Totals,
    side: u8,
    answer: Result<Scored, Refusal>,
    half: u8,
    table: &[u32; COUNT],
) -> Result<Totals, Refusal>
    ensures { AddsWith table.now totals side answer half result }
{
    if BLACK < side {
        return Err(Refusal::Shape);
    }
    if WHOLE < half {
        return Err(Refusal::Result);
    }
    let Ok(outcome) = answer else {
        return apart(totals);
    };
    let Scored::Score(z) = outcome else {
        return apart(totals);
    };
    scored(totals, square(half, entry(table, turned(side, z))))
}
