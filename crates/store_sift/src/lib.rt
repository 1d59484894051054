// A store sifted, as a machine over bytes: any number of bytes at a time go in; what is made of loaded records comes out in one buffer, and the
// rows of refused ones in another.
#![tactic(auto)]

ghost use Rattle.sift_close.specs.Ended.{ClosesSaid};
ghost use Rattle.store_record.specs.Record.{piece_says};
ghost use Rattle.store_sift.specs.Promises.{SiftsStore, ReadyToSiftStore, TakesSiftedStore};

use ledger_feed::Unwritten;
use refusal::Refusal;
use sift_close::Closed;
use sift_form::Form;
use store_record::inner::RECORD;
use store_rows::StoreSoFar;

// The room that a row takes at most.
const ROW: usize = 32;

// A piece that ended: what its record says decides.
fn close(
    form: Form,
    piece: &[u8],
    number: u64,
    made: &mut [u8],
    at: usize,
    rows: &mut [u8],
    from: usize,
) -> Closed
    ensures { ClosesSaid form (piece_says piece.now) number made.old at rows.old from result made.new rows.new }
{
    sift_close::tell(
        form,
        store_record::inner::read(piece),
        number,
        made,
        at,
        rows,
        from,
    )
}

// The bytes of a chunk, where there is room: from piece's end to piece's end.
fn take(
    state: StoreSoFar,
    form: Form,
    piece: &mut [u8],
    chunk: &[u8],
    made: &mut [u8],
    rows: &mut [u8],
) -> Result<(StoreSoFar, usize, usize), Unwritten>
    requires { ReadyToSiftStore state form piece.old chunk.now made.old rows.old }
    ensures { TakesSiftedStore state form piece.old chunk.now made.old rows.old result piece.new made.new rows.new }
{
    let mut held = state.held;
    let mut loaded = state.loaded;
    let mut refused = state.refused;
    let mut made_end = 0;
    let mut rows_end = 0;
    let mut at = 0;
    // A loop by hand: `at` moves on by whole pieces.
    while at < chunk.len() {
        let cut = store_cut::next(held, piece, chunk, at);
        at = cut.at;
        held = cut.held;
        if cut.ended {
            let closed = close(
                form,
                piece,
                loaded + refused + 1,
                made,
                made_end,
                rows,
                rows_end,
            );
            loaded += closed.loaded;
            refused += closed.refused;
            made_end = closed.made;
            rows_end = closed.rows;
        }
    }
    let after = StoreSoFar {
        held,
        loaded,
        refused,
    };
    Ok((after, made_end, rows_end))
}

// Takes a chunk of any size. The state after it, how many bytes were made and how many bytes of rows written; or why nothing has changed: a piece buffer
// that has not 34 bytes or would hold a whole piece, counts that would pass 64 bits, less room than each piece that ends in it needs for its form, and
// 32 bytes for its row.
pub fn feed(
    state: StoreSoFar,
    form: Form,
    piece: &mut [u8],
    chunk: &[u8],
    made: &mut [u8],
    rows: &mut [u8],
) -> Result<(StoreSoFar, usize, usize), Unwritten>
    ensures { SiftsStore state form piece.old chunk.now made.old rows.old result piece.new made.new rows.new }
{
    if piece.len() != RECORD {
        return Err(Unwritten::Refused(Refusal::Shape));
    }
    if state.held >= RECORD {
        return Err(Unwritten::Refused(Refusal::Shape));
    }
    let ends = store_cut::ends(state.held, chunk.len());
    if !ledger_feed::countable(state.loaded, state.refused, ends) {
        return Err(Unwritten::Many);
    }
    if made.len() / sift_form::room(form) < ends {
        return Err(Unwritten::Full);
    }
    if rows.len() / ROW < ends {
        return Err(Unwritten::Full);
    }
    take(state, form, piece, chunk, made, rows)
}
