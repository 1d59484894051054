// The rules of real play on any bitboards: total, and no door.
ghost use Rattle.std.specs.Prelude.{◌≡◌};
ghost use Rattle.position_boards.specs.Wrong.{wrong_of};
ghost use Rattle.position_profile.specs.Profile.{one_king, few_pawns, few_pieces, of_both, off_ends};
ghost use Rattle.position_profile.specs.Promises.{Judges};

use attack::inner::{other, standing};
use attack_to::inner::is_check;
use bits::inner::at;
use chess::color::{BLACK, BLACK_BOARD, WHITE, WHITE_BOARD};
use chess::kind::{KING, PAWN};
use position::State;
use refusal::Refusal;
use score_material::inner::number;

const MOST_PAWNS: u32 = 8;

// The king and the pawns are counted.
const MOST_PIECES: u32 = 16;

// The first and the last rank.
const ENDS: u64 = 0xFF00_0000_0000_00FF;

fn one_king(bitboards: &[u64]) -> bool
    ensures { result ≡ of_both (one_king bitboards.now) }
{
    if number(bitboards, KING, WHITE) != 1 {
        return false;
    }
    number(bitboards, KING, BLACK) == 1
}

fn few_pawns(bitboards: &[u64]) -> bool
    ensures { result ≡ of_both (few_pawns bitboards.now) }
{
    if number(bitboards, PAWN, WHITE) > MOST_PAWNS {
        return false;
    }
    number(bitboards, PAWN, BLACK) <= MOST_PAWNS
}

fn few_pieces(bitboards: &[u64]) -> bool
    ensures { result ≡ of_both (few_pieces bitboards.now) }
{
    if bits::count(at(bitboards, WHITE_BOARD)) > MOST_PIECES {
        return false;
    }
    bits::count(at(bitboards, BLACK_BOARD)) <= MOST_PIECES
}

// The pawns on the first and last rank.
fn at_ends(bitboards: &[u64]) -> u64
    ensures { result ≡ wrong_of (off_ends bitboards.now) }
{
    let white = standing(bitboards, PAWN, WHITE);
    let black = standing(bitboards, PAWN, BLACK);
    (white | black) & ENDS
}

// The rules in their order, each over both colours. The side that just moved is the one not to move.
pub fn judge(bitboards: &[u64], state: State) -> Result<(), Refusal>
    ensures { Judges bitboards.now state result }
{
    if !one_king(bitboards) {
        return Err(Refusal::Kings);
    }
    if !few_pawns(bitboards) {
        return Err(Refusal::Pawns);
    }
    if !few_pieces(bitboards) {
        return Err(Refusal::Pieces);
    }
    let strays = at_ends(bitboards);
    if strays != 0 {
        let pawn = bits::scan(strays) as u8;
        return Err(Refusal::Rank(pawn));
    }
    let moved = other(state.side);
    if is_check(bitboards, moved) {
        let king = bits::scan(standing(bitboards, KING, moved)) as u8;
        return Err(Refusal::Check(king));
    }
    Ok(())
}
