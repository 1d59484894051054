// Verdicts, as eval.rs has them: the door.
#![tactic(auto)]

ghost use Rattle.score_verdict.specs.Promises.{EvalsEnding};

use position::State;
use refusal::Refusal;

pub mod inner;

// How a game stands that a verdict ends; none where it is to be scored.
#[derive(Clone, Copy)]
pub enum Verdict {
    Lost,
    Won,
    Drawn,
}

// Lost, won or drawn, for the side to move, or none of them: SHAPE, OVERLAP, UNION, BYTEBOARD.
pub fn eval_ending(
    bitboards: &[u64],
    board: &[u8],
    state: State,
) -> Result<Option<Verdict>, Refusal>
    ensures { EvalsEnding bitboards.now board.now state result }
{
    position::check(bitboards, board, state)?;
    Ok(inner::ending(bitboards, state.side))
}
