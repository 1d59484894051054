// The double of a trace: `Trace::eval`, worked in the source's order, one rounding for each operation.
#![tactic(auto)]

ghost use Rattle.std.specs.Prelude.{◌≡◌, true, length, ◌*◌, ◌<◌};
ghost use Rattle.trace_counts.specs.Ranges.{are_entries};
ghost use Rattle.trace_double.specs.Double.{between, entry_added, folded};
ghost use Rattle.trace_double.specs.PrivateFrom.{entries_from};
ghost use Rattle.trace_marks.specs.Marks.{groups_of};
ghost use Rattle.trace_double.specs.Promises.{Doubles};

use chess::color::Color;
use places::entry::Entry;
use places::weight::SquareWeight;
use refusal::Refusal;
use trace_counts::{Trace, Weights};
use trace_marks::GROUP;

// A square weight at x pieces, between the opening's and the ending's.
fn interpolated(opening: f64, ending: f64, x: f64) -> f64
    ensures { result ≡ between opening ending x }
{
    (opening * (2.0 - x) + ending * (x - 32.0)) / (2.0 - 32.0)
}

// The entry at k, weighed: nothing where it is 0.
fn entry_added(squares: &[f64], x: f64, score: f64, k: usize, entry: i32) -> f64
    requires { (length squares.now ≡ 768) × (k < 768) }
    ensures { result ≡ entry_added squares.now x score k entry }
{
    if entry > 0 {
        let opening = k / SquareWeight::PER_KIND * SquareWeight::PER_KIND
            + k % Entry::PER_KIND / Entry::PER_SQUARE;
        let weighed = entry as f64
            * interpolated(
                squares[opening],
                squares[opening + SquareWeight::PER_PHASE],
                x,
            );
        if k % Color::COUNT == 0 {
            score + weighed
        } else {
            score - weighed
        }
    } else {
        score
    }
}

// A group's entries, one after the other: those that are 0 add nothing, and are passed over.
fn group_added(squares: &[f64], x: f64, entries: &[i32], start: f64, group: usize) -> f64
    requires { (length squares.now ≡ 768) × (length entries.now ≡ 768) × (group < 48) × (are_entries entries.now ≡ true) }
    ensures { result ≡ entries_from squares.now x entries.now start (16 * group) 16 }
{
    let mut score = start;
    let mut rest = trace_marks::ones(entries, group);
    loop {
        let n = bits::next(rest);
        let Some((j, r)) = n else {
            return score;
        };
        let k = GROUP * group + (j as usize);
        score = entry_added(squares, x, score, k, entries[k]);
        rest = r;
    }
}

// All 768, one after the other, from a score on: the groups that have a 1.
fn entries_added(squares: &[f64], x: f64, entries: &[i32], start: f64, groups: u64) -> f64
    requires { (length squares.now ≡ 768) × (length entries.now ≡ 768) × (are_entries entries.now ≡ true) × (groups ≡ groups_of entries.now 48) }
    ensures { result ≡ folded squares.now x entries.now start 768 }
{
    let mut score = start;
    let mut rest = groups;
    loop {
        let n = bits::next(rest);
        let Some((group, r)) = n else {
            return score;
        };
        score = group_added(squares, x, entries, score, group as usize);
        rest = r;
    }
}

// The 768 entries and the 768 square weights are lent. SHAPE, then TRACE.
pub fn eval(
    trace: Trace,
    entries: &[i32],
    weights: Weights,
    squares: &[f64],
) -> Result<f64, Refusal>
    ensures { Doubles trace entries.now weights squares.now result }
{
    if entries.len() != Entry::COUNT {
        return Err(Refusal::Shape);
    }
    if squares.len() != SquareWeight::COUNT {
        return Err(Refusal::Shape);
    }
    let seen = trace_marks::seen(entries);
    if trace.in_ranges() & seen.entries {
        let x = trace.piece_count as f64;
        Ok(entries_added(
            squares,
            x,
            entries,
            trace_named::sum(trace, weights),
            seen.groups,
        ))
    } else {
        Err(Refusal::Trace)
    }
}
