// A line that ended, read by a buffer that holds its first bytes.
#![tactic(auto)]

ghost use Rattle.line_held.specs.Held.{ReadsHeld, ReadsLong};

use chess::piece::Piece;
use chess::square::Square;
use line::inner::Loaded;
use refusal::Refusal;

// What is read of a line that is too long: nothing stands on its board.
fn long() -> Loaded
    ensures { ReadsLong result }
{
    Loaded {
        answer: Err(Refusal::Long),
        bitboards: [0; Piece::BOARDS],
        board: [Piece::EMPTY; Square::COUNT],
    }
}

// A line of so many bytes: LONG where the buffer does not hold it whole, else what the buffer holds.
pub fn read(line: &[u8], size: usize) -> Loaded
    ensures { ReadsHeld line.now size result }
{
    if line.len() < size {
        return long();
    }
    line::inner::read(&line[..size])
}
