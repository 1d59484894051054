// The same for the crates above, on a position that their own doors have found consistent: total, no door.
ghost use Rattle.std.specs.Prelude.{◌≡◌};
ghost use Rattle.std.specs.Int.Bits.{bit_or};
ghost use Rattle.attack.specs.Attacks.{standing};
ghost use Rattle.attack_to.specs.Promises.{Attackers, Attacked, InCheck};

use attack::inner::{occupied, other, standing};
use attack_rays::inner::{bishop, rook};
use attack_steps::inner::{BLACK_PAWN_ROW, KING_ROW, KNIGHT_ROW, WHITE_PAWN_ROW, reached};
use bits::inner::at;
use chess::color::{BLACK, WHITE};
use chess::inner::index;
use chess::kind::{BISHOP, KING, KNIGHT, PAWN, QUEEN, ROOK};

// The pieces of a kind, of both colours.
fn both(bitboards: &[u64], kind: u8) -> u64
    ensures { result ≡ bit_or (standing bitboards.now kind 0) (standing bitboards.now kind 1) }
{
    standing(bitboards, kind, WHITE) | standing(bitboards, kind, BLACK)
}

// The squares of the pieces of both colours that attack a square: none attacks a square above 63.
pub fn attacks_to(bitboards: &[u64], square: u8, occupied: u64) -> u64
    ensures { Attackers bitboards.now square occupied result }
{
    if square > chess::square::LAST {
        return 0;
    }
    let white_pawns = standing(bitboards, PAWN, WHITE) & reached(BLACK_PAWN_ROW, square);
    let black_pawns = standing(bitboards, PAWN, BLACK) & reached(WHITE_PAWN_ROW, square);
    let knights = both(bitboards, KNIGHT) & reached(KNIGHT_ROW, square);
    let kings = both(bitboards, KING) & reached(KING_ROW, square);
    let queens = both(bitboards, QUEEN);
    let slanted = (both(bitboards, BISHOP) | queens) & bishop(square, occupied);
    let straight = (both(bitboards, ROOK) | queens) & rook(square, occupied);
    white_pawns | (black_pawns | (knights | (kings | (slanted | straight))))
}

// Whether a piece of the other colour attacks a square.
pub fn is_attacked(bitboards: &[u64], square: u8, color: u8) -> bool
    ensures { Attacked bitboards.now square color result }
{
    let attackers = attacks_to(bitboards, square, occupied(bitboards));
    attackers & at(bitboards, index(other(color))) != 0
}

// Whether a colour's king is attacked, the lowest if it has several; true if it has none.
pub fn is_check(bitboards: &[u64], color: u8) -> bool
    ensures { InCheck bitboards.now color result }
{
    let king = standing(bitboards, KING, color);
    if king == 0 {
        return true;
    }
    is_attacked(bitboards, bits::scan(king) as u8, color)
}
