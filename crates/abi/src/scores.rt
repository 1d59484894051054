// Verdict, material and score.
ghost use Rattle.abi.specs.Promises.{EvalsEnding, EvalsMaterial, Evals};

use crate::GIVEN;
use abi_codes::{Code, refused};
use abi_states::{State, taken};
use score::Scored;
use score_verdict::Verdict;

// Verdicts as numbers; none where there is a score.
pub const NONE: u8 = 0;

pub const LOST: u8 = 1;

pub const WON: u8 = 2;

pub const DRAWN: u8 = 3;

// The verdict for the side to move: SHAPE, OVERLAP, UNION, BYTEBOARD, RIGHTS, PASSANT, COUNTER.
pub fn chess_eval_ending(bitboards: &[u64], board: &[u8], state: State, verdict: &mut u8) -> Code
    ensures { EvalsEnding bitboards.now board.now state verdict.old result verdict.new }
{
    let answer = score_verdict::eval_ending(bitboards, board, taken(state));
    match answer {
        Err(refusal) => refused(refusal),
        Ok(is) => {
            match is {
                Some(Verdict::Lost) => *verdict = LOST,
                Some(Verdict::Won) => *verdict = WON,
                Some(Verdict::Drawn) => *verdict = DRAWN,
                None => *verdict = NONE,
            }
            GIVEN
        }
    }
}

// What a colour's pieces are worth, without the pair of bishops: SHAPE, OVERLAP, UNION, BYTEBOARD, RIGHTS, PASSANT, COUNTER, SCORE.
pub fn chess_eval_material(
    bitboards: &[u64],
    board: &[u8],
    state: State,
    color: u8,
    material: &mut i16,
) -> Code
    ensures { EvalsMaterial bitboards.now board.now state color material.old result material.new }
{
    let answer = score_material::eval_material(bitboards, board, taken(state), color);
    match answer {
        Err(refusal) => refused(refusal),
        Ok(z) => {
            *material = z;
            GIVEN
        }
    }
}

// The verdict, and beside it 0; or none, and the score for the side to move: SHAPE, OVERLAP, UNION, BYTEBOARD, RIGHTS, PASSANT, COUNTER, SCORE.
pub fn chess_eval(
    bitboards: &[u64],
    board: &[u8],
    state: State,
    verdict: &mut u8,
    score: &mut i16,
) -> Code
    ensures { Evals bitboards.now board.now state verdict.old score.old result verdict.new score.new }
{
    let answer = score::eval(bitboards, board, taken(state));
    match answer {
        Err(refusal) => refused(refusal),
        Ok(Scored::Lost) => {
            *verdict = LOST;
            *score = 0;
            GIVEN
        }
        Ok(Scored::Won) => {
            *verdict = WON;
            *score = 0;
            GIVEN
        }
        Ok(Scored::Drawn) => {
            *verdict = DRAWN;
            *score = 0;
            GIVEN
        }
        Ok(Scored::Score(z)) => {
            *verdict = NONE;
            *score = z;
            GIVEN
        }
    }
}
