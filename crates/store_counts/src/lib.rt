// A summary of a store, with one record more or one less: records, half points, and each piece on its square.
#![tactic(auto)]

ghost use Rattle.std.specs.Prelude.{◌≡◌, ◌<◌, length};
ghost use Rattle.store_record.specs.Record.{code_in};
ghost use Rattle.store_counts.specs.Summary.{count_place, wrapped_sum, wraps_off, marked_on, summary_moved};
ghost use Rattle.store_counts.specs.Promises.{CountsRecord, UncountsRecord, IsCounted, Sized, OnBoard};

use chess::inner::index;
use chess::piece::{FIRST, LAST, Piece};
use chess::square::Square;
use store_record::inner::RECORD;

// Where the records are counted, the half points, and the first of the pieces on squares.
pub const RECORDS: usize = 0;

pub const POINTS: usize = 1;

pub const PIECES: usize = 2;

pub const SUMMARY: usize = PIECES + Piece::COUNT * Square::COUNT;

// Where a record has its half points.
const HALF: usize = 33;

// What takes one off where sums wrap.
const ONE_LESS: u64 = 0xffff_ffff_ffff_ffff;

// What stands on a square of a record: the even square in the low half.
fn code_on(bytes: &[u8], k: usize) -> u8
    requires { OnBoard bytes.now k }
    ensures { result ≡ code_in bytes.now k }
{
    let pair = bytes[k / 2];
    if k % 2 == 0 {
        pair % 16
    } else {
        pair / 16 % 16
    }
}

// Where a piece on a square is counted.
fn count_place(code: u8, square: usize) -> usize
    requires { IsCounted code square }
    ensures { result ≡ count_place code square }
{
    PIECES + Square::COUNT * index(code - FIRST) + square
}

// A sum of 64 bits: it wraps.
fn sum(a: u64, b: u64) -> u64
    ensures { result ≡ wrapped_sum a b }
{
    std::num::wrapping_add_u64(a, b)
}

// One piece on a square; a code that is no piece's changes nothing.
fn mark(summary: &mut [u64], code: u8, square: usize, once: u64)
    requires { (length summary.old ≡ 770) × (square < 64) }
    ensures { summary.new ≡ marked_on summary.old code square once }
{
    if code < FIRST {
        return;
    }
    if LAST < code {
        return;
    }
    let place = count_place(code, square);
    summary[place] = sum(summary[place], once);
}

// `once` for the record and each of its pieces, `points` for its half points. Sums wrap.
fn move_by(summary: &mut [u64], bytes: &[u8], once: u64, points: u64)
    requires { Sized summary.old bytes.now }
    ensures { summary.new ≡ summary_moved summary.old once points bytes.now }
{
    for k in 0..Square::COUNT {
        mark(summary, code_on(bytes, k), k, once);
    }
    summary[RECORDS] = sum(summary[RECORDS], once);
    summary[POINTS] = sum(summary[POINTS], points);
}

fn wide(n: u8) -> u64
    ensures { result ≡ n }
{
    n as u64
}

// What takes so many half points off where sums wrap.
fn less(n: u8) -> u64
    ensures { result ≡ wraps_off n }
{
    if n == 0 {
        return 0;
    }
    ONE_LESS - wide(n) + 1
}

// One record more. A summary or a record of another size is left alone: who calls has tested both.
pub fn count(summary: &mut [u64], bytes: &[u8])
    ensures { CountsRecord summary.old bytes.now summary.new }
{
    if summary.len() != SUMMARY {
        return;
    }
    if bytes.len() != RECORD {
        return;
    }
    move_by(summary, bytes, 1, wide(bytes[HALF]));
}

// One record less.
pub fn uncount(summary: &mut [u64], bytes: &[u8])
    ensures { UncountsRecord summary.old bytes.now summary.new }
{
    if summary.len() != SUMMARY {
        return;
    }
    if bytes.len() != RECORD {
        return;
    }
    move_by(summary, bytes, ONE_LESS, less(bytes[HALF]));
}
