// A collection sifted, as a machine over bytes: any number of bytes at a time go in; what is made of loaded lines comes out in one buffer, and the
// rows of refused lines in another.
#![tactic(auto)]

ghost use Rattle.sift_feed.specs.Promises.{Sifts, ReadyToSift, TakesSifted};

use ledger_feed::{SoFar, Unwritten};
use line_cut::{Begun, LINE};
use refusal::Refusal;
use sift_form::Form;

// The room that a row takes at most.
const ROW: usize = 32;

// The bytes of a chunk, where there is room: from line's end to line's end.
fn take(
    state: SoFar,
    form: Form,
    line: &mut [u8],
    chunk: &[u8],
    made: &mut [u8],
    rows: &mut [u8],
) -> Result<(SoFar, usize, usize), Unwritten>
    requires { ReadyToSift state form line.old chunk.now made.old rows.old }
    ensures { TakesSifted state form line.old chunk.now made.old rows.old result line.new made.new rows.new }
{
    let mut begun = Begun {
        held: state.held,
        cr: state.cr,
    };
    let mut loaded = state.loaded;
    let mut refused = state.refused;
    let mut made_end = 0;
    let mut rows_end = 0;
    let mut at = 0;
    // A loop by hand: `at` moves on by whole lines.
    while at < chunk.len() {
        let cut = line_cut::next(begun, line, chunk, at);
        at = cut.at;
        let next = cut.begun;
        begun = next;
        if cut.ended {
            let closed = sift_close::close(
                form,
                line,
                cut.size,
                loaded + refused + 1,
                made,
                made_end,
                rows,
                rows_end,
            );
            loaded += closed.loaded;
            refused += closed.refused;
            made_end = closed.made;
            rows_end = closed.rows;
        }
    }
    let after = SoFar {
        held: begun.held,
        cr: begun.cr,
        loaded,
        refused,
    };
    Ok((after, made_end, rows_end))
}

// Takes a chunk of any size. The state after it, how many bytes were made and how many bytes of rows written; or why nothing has changed: a line buffer
// that has not 256 bytes, counts that would pass 64 bits, less room than each line that ends in it needs for its form, and 32 bytes for its row.
pub fn feed(
    state: SoFar,
    form: Form,
    line: &mut [u8],
    chunk: &[u8],
    made: &mut [u8],
    rows: &mut [u8],
) -> Result<(SoFar, usize, usize), Unwritten>
    ensures { Sifts state form line.old chunk.now made.old rows.old result line.new made.new rows.new }
{
    if line.len() != LINE {
        return Err(Unwritten::Refused(Refusal::Shape));
    }
    let ends = line_cut::ends(chunk);
    if !ledger_feed::countable(state.loaded, state.refused, ends) {
        return Err(Unwritten::Many);
    }
    if made.len() / sift_form::room(form) < ends {
        return Err(Unwritten::Full);
    }
    if rows.len() / ROW < ends {
        return Err(Unwritten::Full);
    }
    take(state, form, line, chunk, made, rows)
}
