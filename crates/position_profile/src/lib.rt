// Only positions from real play: the door.
#![tactic(auto)]

ghost use Rattle.position_profile.specs.Promises.{JudgesPosition};

use position::State;
use refusal::Refusal;

pub mod inner;

// Whether a position may come from real play: SHAPE, OVERLAP, UNION, BYTEBOARD, then KINGS, PAWNS, PIECES, RANK, CHECK.
pub fn judge(bitboards: &[u64], board: &[u8], state: State) -> Result<(), Refusal>
    ensures { JudgesPosition bitboards.now board.now state result }
{
    position::check(bitboards, board, state)?;
    inner::judge(bitboards, state)
}
