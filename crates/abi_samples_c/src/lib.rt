// The doors to the samples of a collection, exported for C and Rust: each calls the function of its name in `abi_samples`,
// and promises what that promises.
#![tactic(auto)]

ghost use Rattle.abi_samples.specs.Promises.{FeedsSamples, FinishesSamples};

use abi_codes::Code;
use abi_ledgers::ledgers::NUMBERS;

#[unsafe(no_mangle)]
pub extern "C" fn chess_samples_feed(
    state: &mut [u64; NUMBERS],
    line: &mut [u8],
    chunk: &[u8],
    samples: &mut [u8],
    rows: &mut [u8],
    sampled: &mut usize,
    wrote: &mut usize,
) -> Code
    ensures { FeedsSamples state.old line.old chunk.now samples.old rows.old sampled.old wrote.old result state.new line.new samples.new rows.new sampled.new wrote.new }
{
    abi_samples::chess_samples_feed(state, line, chunk, samples, rows, sampled, wrote)
}

#[unsafe(no_mangle)]
pub extern "C" fn chess_samples_finish(
    state: &[u64; NUMBERS],
    line: &[u8],
    samples: &mut [u8],
    rows: &mut [u8],
    sampled: &mut usize,
    wrote: &mut usize,
) -> Code
    ensures { FinishesSamples state.now line.now samples.old rows.old sampled.old wrote.old result samples.new rows.new sampled.new wrote.new }
{
    abi_samples::chess_samples_finish(state, line, samples, rows, sampled, wrote)
}
