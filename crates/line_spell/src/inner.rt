// The text of what a reader said, whether of a line or of a record: total, and no doors. The position is not tested. Each text is made whole before it is
// put, so that with too little room nothing changes.
ghost use Rattle.line_spell.specs.Promises.{PutsPosition, PutsLine, PutsEnded};

use crate::spell;
use position::State;

// No text is longer: of a position, of its line, of its line with LF.
const POSITION: usize = 91;

const LINE: usize = 99;

pub const ENDED: usize = 100;

// The placement and the five fields of the state, one space between two.
pub fn position(board: &[u8], state: State, out: &mut [u8], at: usize) -> Option<usize>
    ensures { PutsPosition board.now state out.old out.new at result }
{
    let mut text = [0u8; POSITION];
    let end = spell::position(board, state, &mut text);
    text_out::put(out, at, &text[..end])
}

// And `;` and the result.
pub fn line(board: &[u8], state: State, half: u8, out: &mut [u8], at: usize) -> Option<usize>
    ensures { PutsLine board.now state half out.old out.new at result }
{
    let mut text = [0u8; LINE];
    let end = spell::line(board, state, half, &mut text);
    text_out::put(out, at, &text[..end])
}

// And LF, for a program that writes line after line.
pub fn ended(board: &[u8], state: State, half: u8, out: &mut [u8], at: usize) -> Option<usize>
    ensures { PutsEnded board.now state half out.old out.new at result }
{
    let mut text = [0u8; ENDED];
    let end = spell::line(board, state, half, &mut text);
    let past = spell::put(&mut text, end, b"\n");
    text_out::put(out, at, &text[..past])
}
