// The ledger's rows for a store, as a machine over bytes: any number of bytes at a time go in, whole rows come out.
#![tactic(auto)]

ghost use Rattle.store_rows.specs.Promises.{BeginsStore, FeedsStore, MakesStore, ReadyStore, TakesStore, RowsPiece};

use ledger_feed::Unwritten;
use ledger_row::Row;
use refusal::Refusal;
use store_record::inner::RECORD;

// The room that a row takes at most.
const ROW: usize = 32;

// The pieces so far, and how many bytes of the unfinished one stand in the piece buffer.
#[derive(Clone, Copy)]
pub struct StoreSoFar {
    pub held: usize,
    pub loaded: u64,
    pub refused: u64,
}

// Before anything was read.
pub fn start() -> StoreSoFar
    ensures { BeginsStore result }
{
    StoreSoFar {
        held: 0,
        loaded: 0,
        refused: 0,
    }
}

fn made(held: usize, loaded: u64, refused: u64) -> StoreSoFar
    ensures { MakesStore held loaded refused result }
{
    StoreSoFar {
        held,
        loaded,
        refused,
    }
}

// The row of a piece.
fn row(piece: &[u8], number: u64, out: &mut [u8], at: usize) -> Row
    ensures { RowsPiece out.old out.new at number piece.now result }
{
    let read = store_record::inner::read(piece);
    let answer = read.answer;
    let bitboards = read.bitboards;
    ledger_row::inner::row(number, answer, &bitboards, out, at)
}

// The bytes of a chunk, where there is room for their rows: from piece's end to piece's end.
fn take(
    state: StoreSoFar,
    piece: &mut [u8],
    chunk: &[u8],
    out: &mut [u8],
) -> Result<(StoreSoFar, usize), Unwritten>
    requires { ReadyStore state piece.old chunk.now out.old }
    ensures { TakesStore state piece.old chunk.now out.old result piece.new out.new }
{
    let mut held = state.held;
    let mut loaded = state.loaded;
    let mut refused = state.refused;
    let mut wrote = 0;
    let mut at = 0;
    // A loop by hand: `at` moves on by whole pieces.
    while at < chunk.len() {
        let cut = store_cut::next(held, piece, chunk, at);
        at = cut.at;
        held = cut.held;
        if cut.ended {
            let row = row(piece, loaded + refused + 1, out, wrote);
            let placed = row.placed;
            let is_loaded = row.loaded;
            wrote = placed.unwrap_or(wrote);
            loaded += is_loaded as u64;
            refused += !is_loaded as u64;
        }
    }
    Ok((made(held, loaded, refused), wrote))
}

// Takes a chunk of any size: a row for each piece that ends in it. The state after it, and how many bytes of rows were written; or why nothing has changed:
// a piece buffer that has not 34 bytes or would hold a whole piece, counts that would pass 64 bits, less than 32 bytes of room for each row.
pub fn feed(
    state: StoreSoFar,
    piece: &mut [u8],
    chunk: &[u8],
    out: &mut [u8],
) -> Result<(StoreSoFar, usize), Unwritten>
    ensures { FeedsStore state piece.old chunk.now out.old result piece.new out.new }
{
    if piece.len() != RECORD {
        return Err(Unwritten::Refused(Refusal::Shape));
    }
    if state.held >= RECORD {
        return Err(Unwritten::Refused(Refusal::Shape));
    }
    let ends = store_cut::ends(state.held, chunk.len());
    if !ledger_feed::countable(state.loaded, state.refused, ends) {
        return Err(Unwritten::Many);
    }
    if out.len() / ROW < ends {
        return Err(Unwritten::Full);
    }
    take(state, piece, chunk, out)
}
