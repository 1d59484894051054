// The doors for C and Rust to the samples of a collection for a fit, fed in pieces of any size: the ledger's state, two buffers, and nothing told of
// loaded lines but their samples.
#![tactic(auto)]

ghost use Rattle.abi_samples.specs.Promises.{FeedsSamples, FinishesSamples};

use abi_codes::{Code, GIVEN, refused};
use abi_ledgers::ledgers::{FULL, MANY, NUMBERS, numbers_of, state_of};
use ledger_feed::Unwritten;
use sift_form::Form;

// A sample for each loaded line that ends in the chunk, and the row of each refused one: SHAPE (not 256 bytes for the line), the ledger's own MANY,
// FULL (not 300 bytes of room for samples and 32 for rows for each).
pub fn chess_samples_feed(
    state: &mut [u64; NUMBERS],
    line: &mut [u8],
    chunk: &[u8],
    samples: &mut [u8],
    rows: &mut [u8],
    sampled: &mut usize,
    wrote: &mut usize,
) -> Code
    ensures { FeedsSamples state.old line.old chunk.now samples.old rows.old sampled.old wrote.old result state.new line.new samples.new rows.new sampled.new wrote.new }
{
    let fed = sift_feed::feed(state_of(state), Form::Sample, line, chunk, samples, rows);
    match fed {
        Ok((next, m, n)) => {
            *state = numbers_of(next);
            *sampled = m;
            *wrote = n;
            GIVEN
        }
        Err(Unwritten::Full) => FULL,
        Err(Unwritten::Many) => MANY,
        Err(Unwritten::Refused(refusal)) => refused(refusal),
    }
}

// The sample of a last line with no LF, or its row, and the ledger's last row: SHAPE, MANY, FULL (not 300 bytes for samples if a line is unfinished,
// not 116 for rows).
pub fn chess_samples_finish(
    state: &[u64; NUMBERS],
    line: &[u8],
    samples: &mut [u8],
    rows: &mut [u8],
    sampled: &mut usize,
    wrote: &mut usize,
) -> Code
    ensures { FinishesSamples state.now line.now samples.old rows.old sampled.old wrote.old result samples.new rows.new sampled.new wrote.new }
{
    let finished = sift_finish::finish(state_of(state), Form::Sample, line, samples, rows);
    match finished {
        Ok((m, n)) => {
            *sampled = m;
            *wrote = n;
            GIVEN
        }
        Err(Unwritten::Full) => FULL,
        Err(Unwritten::Many) => MANY,
        Err(Unwritten::Refused(refusal)) => refused(refusal),
    }
}
