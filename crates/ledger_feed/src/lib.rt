// The ledger as a machine over bytes: any number of bytes at a time go in, whole rows come out.
#![tactic(auto)]

ghost use Rattle.ledger_feed.specs.Promises.{Starts, Countable, Feeds, MakesState, Ready, Takes};

use line_cut::{Begun, LINE};
use line_profile::Profile;
use refusal::Refusal;

// The room that a row takes at most.
const ROW: usize = 32;

// The largest count.
const MOST: u64 = 0xffff_ffff_ffff_ffff;

// The lines so far, and what is known of the unfinished one beside its bytes in the line buffer.
#[derive(Clone, Copy)]
pub struct SoFar {
    pub held: usize,
    pub cr: bool,
    pub loaded: u64,
    pub refused: u64,
}

// Why nothing was written and nothing has changed: too little room, counts that would pass 64 bits, or a refusal.
#[derive(Clone, Copy)]
pub enum Unwritten {
    Full,
    Many,
    Refused(Refusal),
}

// Before anything was read.
pub fn start() -> SoFar
    ensures { Starts result }
{
    SoFar {
        held: 0,
        cr: false,
        loaded: 0,
        refused: 0,
    }
}

// Whether so many lines and more are counted in 64 bits.
pub fn countable(loaded: u64, refused: u64, more: usize) -> bool
    ensures { Countable loaded refused more result }
{
    let room = MOST - loaded;
    if room < refused {
        return false;
    }
    more as u64 <= room - refused
}

fn made(held: usize, cr: bool, loaded: u64, refused: u64) -> SoFar
    ensures { MakesState held cr loaded refused result }
{
    SoFar {
        held,
        cr,
        loaded,
        refused,
    }
}

// The bytes of a chunk, where there is room for their rows: from line's end to line's end.
fn take(
    profile: Profile,
    state: SoFar,
    line: &mut [u8],
    chunk: &[u8],
    out: &mut [u8],
) -> Result<(SoFar, usize), Unwritten>
    requires { Ready state line.old chunk.now out.old }
    ensures { Takes profile state line.old chunk.now out.old result line.new out.new }
{
    let mut begun = Begun {
        held: state.held,
        cr: state.cr,
    };
    let mut loaded = state.loaded;
    let mut refused = state.refused;
    let mut wrote = 0;
    let mut at = 0;
    // A loop by hand: `at` moves on by whole lines.
    while at < chunk.len() {
        let cut = line_cut::next(begun, line, chunk, at);
        at = cut.at;
        let next = cut.begun;
        begun = next;
        if cut.ended {
            let row = ledger_close::close(
                profile,
                line,
                cut.size,
                loaded + refused + 1,
                out,
                wrote,
            );
            let placed = row.placed;
            let is_loaded = row.loaded;
            wrote = placed.unwrap_or(wrote);
            loaded += is_loaded as u64;
            refused += !is_loaded as u64;
        }
    }
    Ok((made(begun.held, begun.cr, loaded, refused), wrote))
}

// Takes a chunk of any size: a row for each line that ends in it, by what it says under the profile. The state after it, and how many bytes of rows were
// written; or why nothing has changed: a line buffer that has not 256 bytes, counts that would pass 64 bits, less than 32 bytes of room for each row.
pub fn feed(
    profile: Profile,
    state: SoFar,
    line: &mut [u8],
    chunk: &[u8],
    out: &mut [u8],
) -> Result<(SoFar, usize), Unwritten>
    ensures { Feeds profile state line.old chunk.now out.old result line.new out.new }
{
    if line.len() != LINE {
        return Err(Unwritten::Refused(Refusal::Shape));
    }
    let ends = line_cut::ends(chunk);
    if !countable(state.loaded, state.refused, ends) {
        return Err(Unwritten::Many);
    }
    if out.len() / ROW < ends {
        return Err(Unwritten::Full);
    }
    take(profile, state, line, chunk, out)
}
