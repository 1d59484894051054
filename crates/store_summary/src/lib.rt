// A store kept with its summary: a record added at the end, and a record replaced.
#![tactic(auto)]

ghost use Rattle.store_summary.specs.Promises.{AddsRecord, ReplacesRecord, Prepares, HasPlace, Keeps, TakesOff};

use position::State;
use refusal::Refusal;
use store_counts::{RECORDS, SUMMARY};
use store_record::inner::RECORD;

// As many records as a store may have.
const MOST: u64 = 10_000_000;

// The record is put at its number, and counted.
fn keep(run: &mut [u8], summary: &mut [u64], number: u64, bytes: &[u8; RECORD])
    requires { HasPlace run.old summary.old number }
    ensures { Keeps run.old summary.old number bytes.now run.new summary.new }
{
    text_out::put(run, RECORD * number as usize, bytes);
    store_counts::count(summary, bytes);
}

// The record that stands at a number is no longer counted.
fn take_off(run: &[u8], summary: &mut [u64], number: u64)
    requires { HasPlace run.now summary.old number }
    ensures { TakesOff run.now summary.old number summary.new }
{
    let start = RECORD * number as usize;
    let end = start + RECORD;
    store_counts::uncount(summary, &run[start..end]);
}

// A record in a place of its own, or why there is none.
#[derive(Clone, Copy)]
struct Prepared {
    answer: Result<(), Refusal>,
    bytes: [u8; RECORD],
}

fn prepare(bitboards: &[u64], board: &[u8], state: State, half: u8) -> Prepared
    ensures { Prepares bitboards.now board.now state half result }
{
    let mut bytes = [0u8; RECORD];
    let answer = store_record::write_record(bitboards, board, state, half, &mut bytes);
    Prepared { answer, bytes }
}

// SHAPE of the summary, the position's tests, RESULT, LENGTH of the run, MANY, ROOM; then a record more, at the number that the summary
// counts to. Nothing is written before the last test.
pub fn add_record(
    bitboards: &[u64],
    board: &[u8],
    state: State,
    half: u8,
    run: &mut [u8],
    summary: &mut [u64],
) -> Result<(), Refusal>
    ensures { AddsRecord bitboards.now board.now state half run.old summary.old result run.new summary.new }
{
    if summary.len() != SUMMARY {
        return Err(Refusal::Shape);
    }
    let prepared = prepare(bitboards, board, state, half);
    prepared.answer?;
    if run.len() % RECORD != 0 {
        return Err(Refusal::Length);
    }
    let records = summary[RECORDS];
    if records >= MOST {
        return Err(Refusal::Many);
    }
    if records >= (run.len() / RECORD) as u64 {
        return Err(Refusal::Room);
    }
    let bytes = prepared.bytes;
    keep(run, summary, records, &bytes);
    Ok(())
}

// SHAPE of the summary, the position's tests, RESULT, what reading the old record calls for, ABSENT of the summary; then the old record is
// taken off and the new one put on.
pub fn replace_record(
    bitboards: &[u64],
    board: &[u8],
    state: State,
    half: u8,
    number: u64,
    run: &mut [u8],
    summary: &mut [u64],
) -> Result<(), Refusal>
    ensures { ReplacesRecord bitboards.now board.now state half number run.old summary.old result run.new summary.new }
{
    if summary.len() != SUMMARY {
        return Err(Refusal::Shape);
    }
    let prepared = prepare(bitboards, board, state, half);
    prepared.answer?;
    store_record::inner::read_at(run, number).answer?;
    if number >= summary[RECORDS] {
        return Err(Refusal::Absent);
    }
    take_off(run, summary, number);
    let bytes = prepared.bytes;
    keep(run, summary, number, &bytes);
    Ok(())
}
