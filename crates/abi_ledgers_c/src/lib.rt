// The doors to the ledger of a collection, exported for C and Rust: each calls the function of its name in `abi_ledgers`,
// and promises what that promises.
#![tactic(auto)]

ghost use Rattle.abi_ledgers.specs.Promises.{FeedsLedger, FinishesLedger};

use abi_codes::Code;
use abi_ledgers::ledgers::NUMBERS;

#[unsafe(no_mangle)]
pub extern "C" fn chess_ledger_feed(
    state: &mut [u64; NUMBERS],
    line: &mut [u8],
    chunk: &[u8],
    out: &mut [u8],
    wrote: &mut usize,
) -> Code
    ensures { FeedsLedger state.old line.old chunk.now out.old wrote.old result state.new line.new out.new wrote.new }
{
    abi_ledgers::ledgers::chess_ledger_feed(state, line, chunk, out, wrote)
}

#[unsafe(no_mangle)]
pub extern "C" fn chess_ledger_finish(
    state: &[u64; NUMBERS],
    line: &[u8],
    out: &mut [u8],
    wrote: &mut usize,
) -> Code
    ensures { FinishesLedger state.now line.now out.old wrote.old result out.new wrote.new }
{
    abi_ledgers::ledgers::chess_ledger_finish(state, line, out, wrote)
}
