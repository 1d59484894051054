// What a colour's pieces are worth, as eval.rs has it: the door, and the score's numbers for it.
#![tactic(auto)]

ghost use Rattle.score_material.specs.Promises.{EvalsMaterial};

use chess::color::BLACK;
use chess::kind::Kind;
use chess::piece::Piece;
use position::State;
use refusal::Refusal;

pub mod inner;

// By code, for both colours.
#[rattlefmt::skip]
pub const PIECE_VALUES: [u32; Piece::BOARDS] = [
    0, 0,
    Kind::PAWN_VALUE, Kind::PAWN_VALUE,
    Kind::KNIGHT_VALUE, Kind::KNIGHT_VALUE,
    Kind::KING_VALUE, Kind::KING_VALUE,
    Kind::BISHOP_VALUE, Kind::BISHOP_VALUE,
    Kind::ROOK_VALUE, Kind::ROOK_VALUE,
    Kind::QUEEN_VALUE, Kind::QUEEN_VALUE,
];

// What two bishops are worth beyond their own.
pub const BISHOP_PAIR: u32 = 33;

// The largest number of 16 bits.
const LARGEST: u32 = 32767;

// What a colour's pieces are worth, without the pair of bishops: SHAPE, OVERLAP, UNION, BYTEBOARD, SCORE.
pub fn eval_material(
    bitboards: &[u64],
    board: &[u8],
    state: State,
    color: u8,
) -> Result<i16, Refusal>
    ensures { EvalsMaterial bitboards.now board.now state color result }
{
    if color > BLACK {
        return Err(Refusal::Shape);
    }
    position::check(bitboards, board, state)?;
    let total = inner::material(bitboards, color);
    if total > LARGEST {
        return Err(Refusal::Score);
    }
    Ok(total as i16)
}
