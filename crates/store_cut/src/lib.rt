// The pieces of a store, found in chunks of it: whoever reads records asks for the next piece's end, and does with the piece what it does.
#![tactic(auto)]

ghost use Rattle.std.specs.Prelude.{◌≡◌, set};
ghost use Rattle.store_cut.specs.Promises.{EndsPieces, CutsPiece, MakesCut};

use store_record::inner::RECORD;

// The bytes before a piece's last one.
const BEFORE_LAST: usize = RECORD - 1;

// Where the reading stopped, how many bytes of an unfinished piece the buffer then holds, and whether a piece ended, which the buffer is.
#[derive(Clone, Copy)]
pub struct CutPiece {
    pub at: usize,
    pub held: usize,
    pub ended: bool,
}

// How many pieces end in so many bytes more.
pub fn ends(held: usize, more: usize) -> usize
    ensures { EndsPieces held more result }
{
    held / RECORD + more / RECORD + (held % RECORD + more % RECORD) / RECORD
}

fn keep_byte(piece: &mut [u8], held: usize, byte: u8)
    ensures { piece.new ≡ set piece.old held byte }
{
    if held < piece.len() {
        piece[held] = byte;
    }
}

fn found(at: usize, held: usize, ended: bool) -> CutPiece
    ensures { MakesCut at held ended result }
{
    CutPiece { at, held, ended }
}

// Reads on from a place of a chunk, up to and with the piece's 34th byte or to the chunk's end.
pub fn next(held: usize, piece: &mut [u8], chunk: &[u8], from: usize) -> CutPiece
    ensures { CutsPiece held piece.old chunk.now from result piece.new }
{
    let mut held = held;
    for i in from..chunk.len() {
        keep_byte(piece, held, chunk[i]);
        if BEFORE_LAST <= held {
            return found(i + 1, 0, true);
        }
        held += 1;
    }
    found(from.max(chunk.len()), held, false)
}
