// The lines of a collection, found in pieces of it: whoever reads lines asks for the next line's end, and does with the line what it does.
#![tactic(auto)]

ghost use Rattle.std.specs.Prelude.{◌≡◌, [], ◌∷◌};
ghost use Rattle.line_cut.specs.Cut.{kept_byte, one_more_rule, bare_of};
ghost use Rattle.line_cut.specs.Lines.{ends as endsOf};
ghost use Rattle.line_cut.specs.Promises.{EndsIn, CutsNext};

// The bytes of a line that are kept, which is as many as a line may have.
pub const LINE: usize = 256;

// So far the bytes of a line are counted: the fewest with which a line of 257 bytes, a CR among them, is told from a longer one.
const COUNTED: usize = LINE + 2;

// What is known of an unfinished line beside its bytes in the line buffer.
#[derive(Clone, Copy)]
pub struct Begun {
    pub held: usize,
    pub cr: bool,
}

// Where the reading stopped, what is known of the line that is unfinished there, and whether a line ended, of how many bytes.
#[derive(Clone, Copy)]
pub struct Cut {
    pub at: usize,
    pub begun: Begun,
    pub ended: bool,
    pub size: usize,
}

// How many lines end in a chunk.
pub fn ends(chunk: &[u8]) -> usize
    ensures { EndsIn chunk.now result }
{
    let mut n = 0;
    for byte in chunk {
        n += is_end(*byte);
    }
    n
}

#[tactic(auto, unfolding(crate::specs::Lines::ends))]
fn is_end(byte: u8) -> usize
    ensures { result ≡ endsOf (byte ∷ []) }
{
    if byte == b'\n' { 1 } else { 0 }
}

// The length of a line without the CR before its LF.
fn bare(held: usize, cr: bool) -> usize
    ensures { result ≡ bare_of held cr }
{
    if cr {
        if held == 0 { 0 } else { held - 1 }
    } else {
        held
    }
}

fn one_more(held: usize) -> usize
    ensures { result ≡ one_more_rule held }
{
    if held < COUNTED { held + 1 } else { held }
}

fn keep_byte(line: &mut [u8], held: usize, byte: u8)
    ensures { line.new ≡ kept_byte line.old held byte }
{
    if LINE <= held {
        return;
    }
    if held < line.len() {
        line[held] = byte;
    }
}

fn found(at: usize, held: usize, cr: bool, ended: bool, size: usize) -> Cut
    ensures { result ≡ record { at = at; begun = record { held = held; cr = cr }; ended = ended; size = size } }
{
    Cut {
        at,
        begun: Begun { held, cr },
        ended,
        size,
    }
}

// Reads on from a place of a piece, up to and with the next LF or to the piece's end. The line buffer keeps a line's first 256 bytes.
pub fn next(begun: Begun, line: &mut [u8], chunk: &[u8], from: usize) -> Cut
    ensures { CutsNext begun line.old chunk.now from result line.new }
{
    let mut held = begun.held;
    let mut cr = begun.cr;
    for i in from..chunk.len() {
        let byte = chunk[i];
        if byte == b'\n' {
            return found(i + 1, 0, false, true, bare(held, cr));
        }
        keep_byte(line, held, byte);
        held = one_more(held);
        cr = byte == b'\r';
    }
    found(from.max(chunk.len()), held, cr, false, 0)
}
