// Which part of 14 bitboards and 64 board bytes is at odds, with the lowest square concerned: looked for only where the test has said no.
#![tactic(auto)]

ghost use Rattle.std.specs.Prelude.{◌≡◌, ◌<◌, length};
ghost use Rattle.position_boards.specs.PrivateTested.{shared_by};
ghost use Rattle.position_consistent.specs.Consistent.{agrees};
ghost use Rattle.bits.specs.Bitboard.{lowest_of};
ghost use Rattle.position_odds.specs.Named.{lowest_wrong};
ghost use Rattle.position_odds.specs.PrivateTested.{byte_right};
ghost use Rattle.position_odds.specs.Promises.{Tells};

use chess::color::Color;
use chess::inner::index;
use chess::piece::Piece;
use chess::square::Square;
use refusal::Refusal;

// The first of the pieces' boards.
const PIECES: usize = Color::COUNT;

// The squares of all pieces.
fn occupied(bitboards: &[u64]) -> u64
    requires { length bitboards.now ≡ 14 }
    ensures { result ≡ shared_by bitboards.now 1 }
{
    let mut once: u64 = 0;
    for &b in &bitboards[PIECES..Piece::BOARDS] {
        once = b | once;
    }
    once
}

// Whether a byte is the code whose bit is set there, or 0 where no piece stands.
fn byte_right(bitboards: &[u64], pieces: u64, byte: u8, k: usize) -> bool
    requires { (length bitboards.now ≡ 14) × (k < 64) }
    ensures { result ≡ byte_right bitboards.now pieces byte k }
{
    if byte == Piece::EMPTY {
        return (pieces >> k) & 1 == 0;
    }
    if byte < chess::piece::FIRST {
        return false;
    }
    if byte > chess::piece::LAST {
        return false;
    }
    (bitboards[index(byte)] >> k) & 1 != 0
}

// The lowest byte that disagrees, from a1 on; 64 where none does.
fn lowest_byte(bitboards: &[u64], board: &[u8]) -> u8
    requires { (length bitboards.now ≡ 14) × (length board.now ≡ 64) }
    ensures { result ≡ lowest_wrong (agrees bitboards.now board.now) }
{
    let pieces = occupied(bitboards);
    for (k, &byte) in board.iter().enumerate() {
        if !byte_right(bitboards, pieces, byte, k) {
            return k as u8;
        }
    }
    Square::COUNT as u8
}

// The lowest square; 64 where there is none.
fn lowest(b: u64) -> u8
    ensures { result ≡ lowest_of b }
{
    bits::scan(b) as u8
}

// Overlap over all squares, then the unions, then the bytes: what is at odds first, and the lowest square of it.
pub fn at_odds(bitboards: &[u64], board: &[u8]) -> Refusal
    ensures { Tells bitboards.now board.now result }
{
    if bitboards.len() != Piece::BOARDS {
        return Refusal::Shape;
    }
    if board.len() != Square::COUNT {
        return Refusal::Shape;
    }
    let overlap = position_boards::overlap(bitboards);
    if overlap != 0 {
        return Refusal::Overlap(lowest(overlap));
    }
    let split = position_boards::split(bitboards);
    if split != 0 {
        return Refusal::Union(lowest(split));
    }
    Refusal::Byteboard(lowest_byte(bitboards, board))
}
