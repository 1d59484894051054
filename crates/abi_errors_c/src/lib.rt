// The doors to expected scores and the sum over a collection, exported for C and Rust: each calls the function of its name in `abi_errors`,
// and promises what that promises.
#![tactic(auto)]

ghost use Rattle.abi_errors.specs.Promises.{ExpectsScore, AddsError, FeedsError, EndsError};

use abi_codes::Code;
use abi_errors::{STATE, TOTALS};

#[unsafe(no_mangle)]
pub extern "C" fn chess_expected(score: i16) -> u32
    ensures { ExpectsScore score result }
{
    abi_errors::chess_expected(score)
}

#[unsafe(no_mangle)]
pub extern "C" fn chess_error_add(
    totals: &mut [u64; TOTALS],
    side: u8,
    some: bool,
    score: i16,
    half: u8,
) -> Code
    ensures { AddsError totals.old side some score half result totals.new }
{
    abi_errors::chess_error_add(totals, side, some, score, half)
}

#[unsafe(no_mangle)]
pub extern "C" fn chess_error_feed(state: &mut [u64; STATE], line: &mut [u8], piece: &[u8]) -> Code
    ensures { FeedsError state.old line.old piece.now result state.new line.new }
{
    abi_errors::chess_error_feed(state, line, piece)
}

#[unsafe(no_mangle)]
pub extern "C" fn chess_error_end(
    state: &[u64; STATE],
    line: &[u8],
    totals: &mut [u64; TOTALS],
    lines: &mut u64,
) -> Code
    ensures { EndsError state.now line.now totals.old lines.old result totals.new lines.new }
{
    abi_errors::chess_error_end(state, line, totals, lines)
}
