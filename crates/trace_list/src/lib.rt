// The trace as a short list: 64 entries of three bytes, kind, square and colour, sorted by those three, and how many of them are used.
#![tactic(auto)]

ghost use Rattle.std.specs.Prelude.{◌≡◌, ◌<◌, ◌≤◌};
ghost use Rattle.laws.specs.Tests.{all_below};
ghost use Rattle.places.specs.Places.{entry_place};
ghost use Rattle.trace_list.specs.Form.{in_range, list_place, comes_after, is_unused};
ghost use Rattle.trace_list.specs.Promises.{TestsList};

// The form's room.
pub const ENTRIES: usize = 64;

pub const PER_ENTRY: usize = 3;

pub const BYTES: usize = ENTRIES * PER_ENTRY;

// Where the flat form has a kind, a square and a colour: small, whatever the bytes.
fn place_of(kind: u8, square: u8, color: u8) -> usize
    ensures { (result ≡ entry_place kind square color) × (result < 65536) }
{
    places::inner::entry(kind, square, color)
}

// Where it has entry i.
fn place(bytes: &[u8; BYTES], i: usize) -> usize
    requires { i < 64 }
    ensures { (result ≡ list_place bytes.now i) × (result < 65536) }
{
    let at = PER_ENTRY * i;
    place_of(bytes[at], bytes[at + 1], bytes[at + 2])
}

fn is_in_range(bytes: &[u8; BYTES], i: usize) -> bool
    requires { i < 64 }
    ensures { result ≡ in_range bytes.now i }
{
    let at = PER_ENTRY * i;
    (bytes[at] < 6) & (bytes[at + 1] < 64) & (bytes[at + 2] < 2)
}

// Each entry used is in range and comes after the one before it.
fn is_sorted(used: usize, bytes: &[u8; BYTES]) -> bool
    requires { used ≤ 64 }
    ensures { result ≡ all_below used (comes_after bytes.now) }
{
    let mut good = true;
    let mut least: usize = 0;
    for i in 0..used {
        let here = place(bytes, i);
        good = is_in_range(bytes, i) & (least <= here) & good;
        least = here + 1;
    }
    good
}

// What is not used is zero.
fn is_padded(used: usize, bytes: &[u8; BYTES]) -> bool
    requires { used ≤ 64 }
    ensures { result ≡ all_below 192 (is_unused used bytes.now) }
{
    let mut good = true;
    for byte in &bytes[PER_ENTRY * used..] {
        good = (*byte == 0) & good;
    }
    good
}

// ENTRY, if not.
pub fn is_list(used: u8, bytes: &[u8; BYTES]) -> bool
    ensures { TestsList used bytes.now result }
{
    let used = chess::inner::index(used);
    if ENTRIES < used {
        return false;
    }
    is_sorted(used, bytes) & is_padded(used, bytes)
}
