// Where a trace's 768 entries are 1, found in one reading: groups of sixteen first, then the entries of a group.
#![tactic(auto)]

ghost use Rattle.std.specs.Prelude.{◌≡◌, ltb, length, ◌*◌, ◌<◌};
ghost use Rattle.std.specs.Int.{w32};
ghost use Rattle.std.proofs.Common.{of_z};
ghost use Rattle.trace_counts.specs.Ranges.{are_entries};
ghost use Rattle.trace_marks.specs.Marks.{Held, group_of, mark_of, groups_of, odd_of};
ghost use Rattle.trace_marks.specs.Promises.{Sees, GivesOnes};

use places::entry::Entry;

// Sixteen entries are a group.
pub const GROUP: usize = 16;

const GROUPS: usize = Entry::COUNT / GROUP;

// The entries of a group taken together, binary digit by binary digit: 0 where all are 0, neither 0 nor 1 where one is neither.
fn united(entries: &[i32], group: usize) -> i32
    requires { (length entries.now ≡ 768) × (group < 48) }
    ensures { (of_z w32 result ≡ group_of entries.now group) × Held entries.now (16 * group) 16 }
{
    let mut union: i32 = 0;
    for entry in &entries[GROUP * group..GROUP * group + GROUP] {
        union |= *entry;
    }
    union
}

// 1, but 0 for 0.
fn mark(z: i32) -> u64
    ensures { result ≡ mark_of (of_z w32 z) }
{
    if z == 0 {
        return 0;
    }
    1
}

fn is_entry(z: i32) -> bool
    ensures { result ≡ ltb (of_z w32 z) 2 }
{
    (z == 0) | (z == 1)
}

// Whether all entries are 0 or 1, and a digit for each group that is not all 0.
#[derive(Clone, Copy)]
pub struct Reading {
    pub entries: bool,
    pub groups: u64,
}

fn tested_groups(entries: &[i32]) -> Reading
    requires { length entries.now ≡ 768 }
    ensures { (result.entries ≡ are_entries entries.now) × (result.groups ≡ groups_of entries.now 48) }
{
    let mut union: i32 = 0;
    let mut groups: u64 = 0;
    for g in 0..GROUPS {
        let here = united(entries, g);
        union |= here;
        groups |= mark(here) << g;
    }
    Reading {
        entries: is_entry(union),
        groups,
    }
}

// No entries where there are not 768.
pub fn seen(entries: &[i32]) -> Reading
    ensures { Sees entries.now result }
{
    if entries.len() != Entry::COUNT {
        return Reading {
            entries: false,
            groups: 0,
        };
    }
    tested_groups(entries)
}

fn digits(entries: &[i32], group: usize) -> u64
    requires { (length entries.now ≡ 768) × (group < 48) }
    ensures { result ≡ odd_of entries.now group }
{
    let mut digits: u64 = 0;
    for j in 0..GROUP {
        digits |= ((entries[GROUP * group + j] & 1) as u64) << j;
    }
    digits
}

// A digit for each entry of a group that is 1.
pub fn ones(entries: &[i32], group: usize) -> u64
    ensures { GivesOnes entries.now group result }
{
    if entries.len() != Entry::COUNT {
        return 0;
    }
    if group >= GROUPS {
        return 0;
    }
    digits(entries, group)
}
