// Total, and no door: no squares for a number that is no kind.
ghost use Rattle.std.specs.Prelude.{◌≡◌, ◌≤◌};
ghost use Rattle.std.specs.Int.Bits.{bit_and};
ghost use Rattle.bits.specs.Bitboard.{has, how_many};
ghost use Rattle.trace_mobility.specs.PrivateMasks.{masked, pawn_masks, knight_masks, king_masks};
ghost use Rattle.trace_mobility.specs.Promises.{CountsAttacked};

use attack::inner::attacks_from;
use bits::count;
use chess::color::WHITE;
use chess::kind::{KING, KNIGHT, PAWN};

// How many squares two bitboards share.
fn shared(a: u64, b: u64) -> u32
    ensures { (result ≡ how_many 64 (has (bit_and a b))) × (result ≤ 64) }
{
    count(a & b)
}

// How many squares a pawn attacks: one on each side that it has, where there is a rank before it.
fn by_pawns(pawns: u64, color: u8) -> u32
    ensures { result ≡ masked (pawn_masks color) pawns }
{
    if color == WHITE {
        return shared(pawns, 0x00fe_fefe_fefe_fefe) + shared(pawns, 0x007f_7f7f_7f7f_7f7f);
    }
    shared(pawns, 0xfefe_fefe_fefe_fe00) + shared(pawns, 0x7f7f_7f7f_7f7f_7f00)
}

// From 2 squares in a corner to 8: the digits of that number, each for all knights at once.
fn by_knights(knights: u64) -> u32
    ensures { result ≡ masked knight_masks knights }
{
    let ones = shared(knights, 0x4281_0000_0000_8142);
    let twos = shared(knights, 0xc3bd_4242_4242_bdc3);
    let fours = shared(knights, 0x3c7e_c3c3_c3c3_7e3c);
    let eights = shared(knights, 0x0000_3c3c_3c3c_0000);
    ones + 2 * twos + 4 * fours + 8 * eights
}

// 3 in a corner, 5 at an edge, 8 inside.
fn by_kings(kings: u64) -> u32
    ensures { result ≡ masked king_masks kings }
{
    let corner = shared(kings, 0x8100_0000_0000_0081);
    let edge = shared(kings, 0x7e81_8181_8181_817e);
    let inside = shared(kings, 0x007e_7e7e_7e7e_7e00);
    3 * corner + 5 * edge + 8 * inside
}

// Each piece by itself.
fn one_by_one(pieces: u64, kind: u8, color: u8, occupied: u64) -> u32
    ensures { CountsAttacked pieces kind color occupied result }
{
    let mut rest = pieces;
    let mut sum: u32 = 0;
    loop {
        let n = bits::next(rest);
        let Some((s, r)) = n else {
            return sum;
        };
        sum += count(attacks_from(kind, color, s, occupied));
        rest = r;
    }
}

// How many squares the pieces of a kind and a colour attack.
pub fn attacked(pieces: u64, kind: u8, color: u8, occupied: u64) -> u32
    ensures { CountsAttacked pieces kind color occupied result }
{
    match kind {
        PAWN => by_pawns(pieces, color),
        KNIGHT => by_knights(pieces),
        KING => by_kings(pieces),
        _ => one_by_one(pieces, kind, color, occupied),
    }
}
