// A flat trace turned into a list, and a list turned flat.
#![tactic(auto)]

ghost use Rattle.std.specs.Prelude.{◌≡◌, [], T, pos, length, set, ◌+◌, ◌*◌, ◌<◌, ◌≤◌};
ghost use Rattle.std.specs.Int.Signed.{lt_z};
ghost use Rattle.places.specs.Places.{kind_at, square_at, colour_at};
ghost use Rattle.bits.specs.Bitboard.{digit, how_many};
ghost use Rattle.trace_list.specs.Form.{is_one_rule, is_list, list_places, ones_in, list_bytes, flat_of};
ghost use Rattle.trace_list_turn.specs.Promises.{ListsTrace, Flattens};

use chess::inner::index;
use places::entry::Entry;
use refusal::Refusal;
use trace_counts::Trace;
use trace_list::{BYTES, ENTRIES, PER_ENTRY};

fn is_one(entry: i32) -> bool
    ensures { result ≡ lt_z (pos 0) entry }
{
    entry > 0
}

fn one(entry: i32) -> usize
    ensures { (result ≡ digit (lt_z (pos 0) entry)) × (result ≤ 1) }
{
    if is_one(entry) {
        return 1;
    }
    0
}

// How many ones there are.
fn number(entries: &[i32]) -> usize
    requires { length entries.now ≡ 768 }
    ensures { (result ≡ how_many 768 (is_one_rule entries.now)) × (result ≤ 768) }
{
    let mut sum: usize = 0;
    for entry in entries {
        sum += one(*entry);
    }
    sum
}

fn clear(bytes: &mut [u8; BYTES])
    ensures { bytes.new ≡ list_bytes [] }
{
    *bytes = [0; BYTES];
}

// Entry n is what stands at place k.
fn put(bytes: &mut [u8; BYTES], n: usize, k: usize)
    requires { (n < 64) × (k < 768) }
    ensures { bytes.new ≡ set (set (set bytes.old (3 * n) (kind_at k)) (3 * n + 1) (square_at k)) (3 * n + 2) (colour_at k) }
{
    let at = PER_ENTRY * n;
    bytes[at] = (k / 128) as u8;
    bytes[at + 1] = (k % 128 / 2) as u8;
    bytes[at + 2] = (k % 2) as u8;
}

fn fill(entries: &[i32], bytes: &mut [u8; BYTES])
    requires { (length entries.now ≡ 768) × (how_many 768 (is_one_rule entries.now) ≤ 64) × (bytes.old ≡ list_bytes []) }
    ensures { bytes.new ≡ list_bytes (ones_in entries.now) }
{
    let mut n: usize = 0;
    for (k, entry) in entries.iter().enumerate() {
        if is_one(*entry) {
            put(bytes, n, k);
            n += 1;
        }
    }
}

// The 768 entries and the list's bytes are lent. SHAPE, TRACE, then ENTRY.
pub fn list_of(trace: Trace, entries: &[i32], bytes: &mut [u8; BYTES]) -> Result<u8, Refusal>
    ensures { ListsTrace trace entries.now bytes.old result bytes.new }
{
    if entries.len() != Entry::COUNT {
        return Err(Refusal::Shape);
    }
    if trace.in_ranges() & trace_counts::are_entries(entries) {
        let ones = number(entries);
        if ENTRIES < ones {
            return Err(Refusal::Entry);
        }
        clear(bytes);
        fill(entries, bytes);
        let used = ones as u8;
        return Ok(used);
    }
    Err(Refusal::Trace)
}

fn clear_entries(entries: &mut [i32])
    requires { length entries.old ≡ 768 }
    ensures { entries.new ≡ flat_of [] }
{
    entries.fill(0);
}

// A 1 at the place of each entry that is used.
fn mark(used: usize, bytes: &[u8; BYTES], entries: &mut [i32])
    requires { T (is_list used bytes.now) × (entries.old ≡ flat_of []) }
    ensures { entries.new ≡ flat_of (list_places bytes.now used) }
{
    for i in 0..used {
        let at = PER_ENTRY * i;
        let k = places::inner::entry(bytes[at], bytes[at + 1], bytes[at + 2]);
        entries[k] = 1;
    }
}

// The list and the 768 entries are lent. SHAPE, TRACE, then ENTRY.
pub fn flat_of(
    trace: Trace,
    used: u8,
    bytes: &[u8; BYTES],
    entries: &mut [i32],
) -> Result<(), Refusal>
    ensures { Flattens trace used bytes.now entries.old result entries.new }
{
    if entries.len() != Entry::COUNT {
        return Err(Refusal::Shape);
    }
    if trace.in_ranges() {
        if trace_list::is_list(used, bytes) {
            clear_entries(entries);
            mark(index(used), bytes, entries);
            return Ok(());
        }
        return Err(Refusal::Entry);
    }
    Err(Refusal::Trace)
}
