// The ledger of a collection, fed in pieces of any size. Its state is lent as four numbers, all 0 before anything was read.
ghost use Rattle.abi_ledgers.specs.Promises.{ReadsState, GivesState, FeedsLedger, FinishesLedger};

use abi_codes::{Code, GIVEN, NO_SQUARE, flag, refused};
use ledger_feed::{SoFar, Unwritten};
use line_profile::Profile;

// Bytes held of the line that has not ended, whether the last was a CR, loaded rows, refused rows.
pub const NUMBERS: usize = 4;

// The ledger's own, no refusals of the documents' table: too little room for the rows, and more lines than 64 bits count.
pub const LEDGER_FULL: u8 = 254;

pub const LEDGER_MANY: u8 = 255;

pub const FULL: Code = Code {
    number: LEDGER_FULL,
    square: NO_SQUARE,
};

pub const MANY: Code = Code {
    number: LEDGER_MANY,
    square: NO_SQUARE,
};

// The state of its numbers.
pub fn state_of(numbers: &[u64; NUMBERS]) -> SoFar
    ensures { ReadsState numbers.now result }
{
    SoFar {
        held: numbers[0] as usize,
        cr: numbers[1] != 0,
        loaded: numbers[2],
        refused: numbers[3],
    }
}

// And back.
pub fn numbers_of(state: SoFar) -> [u64; NUMBERS]
    ensures { GivesState state result }
{
    [
        state.held as u64,
        flag(state.cr),
        state.loaded,
        state.refused,
    ]
}

// A row for each line that ends in the chunk, and how many bytes they are: SHAPE (not 256 bytes for the line), the ledger's own MANY, FULL (not 32
// bytes of room for each).
pub fn chess_ledger_feed(
    state: &mut [u64; NUMBERS],
    line: &mut [u8],
    chunk: &[u8],
    out: &mut [u8],
    wrote: &mut usize,
) -> Code
    ensures { FeedsLedger state.old line.old chunk.now out.old wrote.old result state.new line.new out.new wrote.new }
{
    let fed = ledger_feed::feed(Profile::Any, state_of(state), line, chunk, out);
    match fed {
        Ok((next, n)) => {
            *state = numbers_of(next);
            *wrote = n;
            GIVEN
        }
        Err(Unwritten::Full) => FULL,
        Err(Unwritten::Many) => MANY,
        Err(Unwritten::Refused(refusal)) => refused(refusal),
    }
}

// The row of a last line with no LF, and the totals: SHAPE, MANY, FULL (not room for what is written).
pub fn chess_ledger_finish(
    state: &[u64; NUMBERS],
    line: &[u8],
    out: &mut [u8],
    wrote: &mut usize,
) -> Code
    ensures { FinishesLedger state.now line.now out.old wrote.old result out.new wrote.new }
{
    let finished = ledger_finish::finish(Profile::Any, state_of(state), line, out);
    match finished {
        Ok(n) => {
            *wrote = n;
            GIVEN
        }
        Err(Unwritten::Full) => FULL,
        Err(Unwritten::Many) => MANY,
        Err(Unwritten::Refused(refusal)) => refused(refusal),
    }
}
