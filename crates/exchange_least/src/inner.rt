// The same for the crates above, for any order of the kinds, on a position that their own doors have found consistent: total, no door.
ghost use Rattle.std.specs.Prelude.{◌≡◌};
ghost use Rattle.exchange_least.specs.Least.{still_there};
ghost use Rattle.exchange_least.specs.PrivateFound.{found_before};
ghost use Rattle.exchange_least.specs.Promises.{Picks, Capturer};

use attack::inner::standing;
use attack_to::inner::attacks_to;

fn still_there(bitboards: &[u64], kind: u8, color: u8, attacks: u64, occupied: u64) -> u64
    ensures { result ≡ still_there bitboards.now kind color attacks occupied }
{
    attacks & occupied & standing(bitboards, kind, color)
}

// The attackers of the first kind that has one still there, and that kind; none where no kind has.
#[derive(Clone, Copy)]
struct Found {
    there: u64,
    kind: u8,
}

// A kind before those that were asked.
fn before(there: u64, kind: u8, later: Found) -> Found
    ensures { result ≡ found_before there kind later }
{
    if there == 0 {
        return later;
    }
    Found { there, kind }
}

// Who captures next, its square and its kind: the first of the kinds that has an attacker still there, and of that kind the lowest square. The kinds are asked from the last to the first, all of
// them, so that nothing has to be guessed of which it is.
pub fn pick(
    bitboards: &[u64],
    kinds: &[u8],
    color: u8,
    attacks: u64,
    occupied: u64,
) -> Option<(u8, u8)>
    ensures { Picks kinds.now bitboards.now color attacks occupied result }
{
    let mut found = Found { there: 0, kind: 0 };
    for i in (0..kinds.len()).rev() {
        let kind = kinds[i];
        let there = still_there(bitboards, kind, color, attacks, occupied);
        found = before(there, kind, found);
    }
    let there = found.there;
    if there == 0 {
        return None;
    }
    Some((bits::scan(there) as u8, found.kind))
}

// Who captures on `to` next: attacks are found afresh.
pub fn capturer(
    bitboards: &[u64],
    kinds: &[u8],
    color: u8,
    to: u8,
    occupied: u64,
) -> Option<(u8, u8)>
    ensures { Capturer kinds.now bitboards.now color to occupied result }
{
    let attacks = attacks_to(bitboards, to, occupied);
    pick(bitboards, kinds, color, attacks, occupied)
}
