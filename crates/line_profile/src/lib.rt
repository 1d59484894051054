// A line of a collection under a profile: the line's own refusals, then the profile's.
#![tactic(auto)]

ghost use Rattle.line_profile.specs.Promises.{ReadsLineUnder};

use chess::piece::Piece;
use chess::square::Square;
use position::State;
use refusal::Refusal;

pub mod inner;

// Which positions a collection takes: every one, or those from real play alone.
#[derive(Clone, Copy)]
pub enum Profile {
    Any,
    RealPlay,
}

// SHAPE first, then what the line and its position call for. The position is judged before anything is written; one that passes is read again by the
// one function that writes.
pub fn read_line(
    profile: Profile,
    line: &[u8],
    bitboards: &mut [u64],
    board: &mut [u8],
) -> Result<(State, u8), Refusal>
    ensures { ReadsLineUnder profile line.now bitboards.old board.old result bitboards.new board.new }
{
    if bitboards.len() != Piece::BOARDS {
        return Err(Refusal::Shape);
    }
    if board.len() != Square::COUNT {
        return Err(Refusal::Shape);
    }
    let loaded = line::inner::read(line);
    let answer = loaded.answer;
    let from = loaded.bitboards;
    let judged = inner::under(profile, answer, &from);
    if let Err(_) = judged {
        return judged;
    }
    line::read_line(line, bitboards, board)
}
