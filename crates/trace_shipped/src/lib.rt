// The shipped weights, from which `Tuner::new` starts: the score's own numbers.
#![tactic(auto)]

ghost use Rattle.std.specs.Prelude.{◌≡◌, ◌<◌, length};
ghost use Rattle.score_pst.specs.Pst.{pst_table};
ghost use Rattle.doubles.specs.Doubles.{dbl};
ghost use Rattle.trace_shipped.specs.Weights.{square_weight, shipped_squares};
ghost use Rattle.trace_shipped.specs.Promises.{Ships, ShipsSquares};

use chess::kind::Kind;
use places::weight::SquareWeight;
use refusal::Refusal;
use score_material::BISHOP_PAIR;
use score_tally::{BISHOP_MOBILITY, KNIGHT_MOBILITY, QUEEN_MOBILITY, ROOK_MOBILITY};
use score_taper::TEMPO;
use trace_counts::Weights;

// The eleven that have a name.
pub fn weights() -> Weights
    ensures { Ships result }
{
    Weights {
        pawn: Kind::PAWN_VALUE as f64,
        knight: Kind::KNIGHT_VALUE as f64,
        bishop: Kind::BISHOP_VALUE as f64,
        rook: Kind::ROOK_VALUE as f64,
        queen: Kind::QUEEN_VALUE as f64,
        bishop_pair: BISHOP_PAIR as f64,
        knight_mobility: KNIGHT_MOBILITY as f64,
        bishop_mobility: BISHOP_MOBILITY as f64,
        rook_mobility: ROOK_MOBILITY as f64,
        queen_mobility: QUEEN_MOBILITY as f64,
        tempo: TEMPO as f64,
    }
}

// The square weight at a place: what the white piece weighs.
fn square_weight(pst: &[i8], place: usize) -> f64
    requires { (pst.now ≡ pst_table) × (place < 768) }
    ensures { result ≡ dbl (square_weight place) }
{
    let kind = (place / SquareWeight::PER_KIND) as u8;
    let phase = (place % SquareWeight::PER_KIND / SquareWeight::PER_PHASE) as u8;
    let square = (place % SquareWeight::PER_PHASE) as u8;
    score_pst::inner::weight(pst, chess::inner::white(kind), square, phase) as f64
}

fn fill(pst: &[i8], squares: &mut [f64])
    requires { (pst.now ≡ pst_table) × (length squares.old ≡ 768) }
    ensures { squares.new ≡ shipped_squares }
{
    for (place, weight) in squares.iter_mut().enumerate() {
        *weight = square_weight(pst, place);
    }
}

// The 768 square weights: SHAPE where there is not room for just as many.
pub fn square_weights(squares: &mut [f64]) -> Result<(), Refusal>
    ensures { ShipsSquares squares.old result squares.new }
{
    if squares.len() != SquareWeight::COUNT {
        return Err(Refusal::Shape);
    }
    let pst = score_pst::inner::table();
    fill(&pst, squares);
    Ok(())
}
