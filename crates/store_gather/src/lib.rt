// The summary of a whole store, read in chunks: what store_cut finds to be a piece is read and counted, up to the first that can't be.
#![tactic(auto)]

ghost use Rattle.std.specs.Prelude.{◌≡◌, length};
ghost use Rattle.store_gather.specs.Promises.{BeginsSummary, FeedsSummary, EndsSummary, CountsPiece, TakesPieces, ReadyToGather};

use refusal::Refusal;
use store_counts::{RECORDS, SUMMARY};
use store_record::inner::RECORD;

// As many records as a summary counts.
const MOST: u64 = 10_000_000;

// The number, from 1, of the first record that is not counted, and its refusal's; 0 where there is none.
#[derive(Clone, Copy)]
pub struct First {
    pub number: u64,
    pub refusal: u8,
}

// What is held of an unfinished piece, and the first record that is not counted.
#[derive(Clone, Copy)]
pub struct GatheredSoFar {
    pub held: usize,
    pub number: u64,
    pub refusal: u8,
}

// Before anything was read; the summary is lent as zeros.
pub fn start() -> GatheredSoFar
    ensures { BeginsSummary result }
{
    GatheredSoFar {
        held: 0,
        number: 0,
        refusal: 0,
    }
}

fn uncounted(number: u64, refusal: u8) -> First
    ensures { result ≡ record { number = number; refusal = refusal } }
{
    First { number, refusal }
}

// A piece that ended: nothing more is counted after one that is refused, or past the last that a summary counts.
fn count_piece(number: u64, refusal: u8, piece: &[u8], summary: &mut [u64]) -> First
    requires { length summary.old ≡ 770 }
    ensures { CountsPiece number refusal piece.now summary.old result summary.new }
{
    if number != 0 {
        return uncounted(number, refusal);
    }
    let records = summary[RECORDS];
    if records >= MOST {
        return uncounted(MOST + 1, Refusal::Many.number());
    }
    let answer = store_record::inner::read(piece).answer;
    if let Err(refusal) = answer {
        return uncounted(records + 1, refusal.number());
    }
    store_counts::count(summary, piece);
    uncounted(0, 0)
}

// The bytes of a chunk, from piece's end to piece's end.
fn take(state: GatheredSoFar, piece: &mut [u8], chunk: &[u8], summary: &mut [u64]) -> GatheredSoFar
    requires { ReadyToGather state piece.old summary.old }
    ensures { TakesPieces state piece.old chunk.now summary.old result piece.new summary.new }
{
    let mut held = state.held;
    let mut number = state.number;
    let mut refusal = state.refusal;
    let mut at = 0;
    // A loop by hand: `at` moves on by whole pieces.
    while at < chunk.len() {
        let cut = store_cut::next(held, piece, chunk, at);
        at = cut.at;
        held = cut.held;
        if cut.ended {
            let first = count_piece(number, refusal, piece, summary);
            number = first.number;
            refusal = first.refusal;
        }
    }
    GatheredSoFar {
        held,
        number,
        refusal,
    }
}

// Takes a chunk of any size: each piece that ends in it is counted. SHAPE, and nothing has changed: a piece buffer that has not 34 bytes or would hold a
// whole piece, a summary that has not 770 numbers.
pub fn feed(
    state: GatheredSoFar,
    piece: &mut [u8],
    chunk: &[u8],
    summary: &mut [u64],
) -> Result<GatheredSoFar, Refusal>
    ensures { FeedsSummary state piece.old chunk.now summary.old result piece.new summary.new }
{
    if piece.len() != RECORD {
        return Err(Refusal::Shape);
    }
    if summary.len() != SUMMARY {
        return Err(Refusal::Shape);
    }
    if state.held >= RECORD {
        return Err(Refusal::Shape);
    }
    Ok(take(state, piece, chunk, summary))
}

// The end of the input, of which so many records are counted: a short last piece is refused too.
pub fn finish(state: GatheredSoFar, records: u64) -> First
    ensures { EndsSummary state records result }
{
    if state.number != 0 {
        return uncounted(state.number, state.refusal);
    }
    if state.held == 0 {
        return uncounted(0, 0);
    }
    if records >= MOST {
        return uncounted(MOST + 1, Refusal::Many.number());
    }
    uncounted(records + 1, Refusal::Length.number())
}
