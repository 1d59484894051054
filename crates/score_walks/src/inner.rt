// A loop for each kind, so that nothing is chosen by kind in a loop, and what depends on the occupancy alone is worked out before it. Total, and no door.
ghost use Rattle.score_walks.specs.Promises.{WalksPawns, WalksKnights, WalksBishops, WalksRooks, WalksQueens, WalksKings};

use crate::Walked;
use attack_rays::inner::{bishop, queen, rook};
use attack_steps::inner::{KNIGHT_ROW, reached};
use chess::inner::flip;
use score_weights::inner::{bishop_word, king_word, knight_word, pawn_word, queen_word, rook_word};

// Pawns and kings have no mobility: their words alone.
pub fn pawns(pieces: u64, color: u8) -> u64
    ensures { WalksPawns pieces color result }
{
    let mut words: u64 = 0;
    let mut rest = pieces;
    loop {
        let n = bits::next(rest);
        let Some((square, r)) = n else {
            return words;
        };
        words += pawn_word(flip(square, color));
        rest = r;
    }
}

pub fn kings(pieces: u64, color: u8) -> u64
    ensures { WalksKings pieces color result }
{
    let mut words: u64 = 0;
    let mut rest = pieces;
    loop {
        let n = bits::next(rest);
        let Some((square, r)) = n else {
            return words;
        };
        words += king_word(flip(square, color));
        rest = r;
    }
}

pub fn knights(pieces: u64, color: u8) -> Walked
    ensures { WalksKnights pieces color result }
{
    let mut attacked: u32 = 0;
    let mut words: u64 = 0;
    let mut rest = pieces;
    loop {
        let n = bits::next(rest);
        let Some((square, r)) = n else {
            return Walked { attacked, words };
        };
        attacked += bits::count(reached(KNIGHT_ROW, square));
        words += knight_word(flip(square, color));
        rest = r;
    }
}

pub fn bishops(pieces: u64, color: u8, occupied: u64) -> Walked
    ensures { WalksBishops pieces color occupied result }
{
    let mut attacked: u32 = 0;
    let mut words: u64 = 0;
    let mut rest = pieces;
    loop {
        let n = bits::next(rest);
        let Some((square, r)) = n else {
            return Walked { attacked, words };
        };
        attacked += bits::count(bishop(square, occupied));
        words += bishop_word(flip(square, color));
        rest = r;
    }
}

pub fn rooks(pieces: u64, color: u8, occupied: u64) -> Walked
    ensures { WalksRooks pieces color occupied result }
{
    let mut attacked: u32 = 0;
    let mut words: u64 = 0;
    let mut rest = pieces;
    loop {
        let n = bits::next(rest);
        let Some((square, r)) = n else {
            return Walked { attacked, words };
        };
        attacked += bits::count(rook(square, occupied));
        words += rook_word(flip(square, color));
        rest = r;
    }
}

pub fn queens(pieces: u64, color: u8, occupied: u64) -> Walked
    ensures { WalksQueens pieces color occupied result }
{
    let mut attacked: u32 = 0;
    let mut words: u64 = 0;
    let mut rest = pieces;
    loop {
        let n = bits::next(rest);
        let Some((square, r)) = n else {
            return Walked { attacked, words };
        };
        attacked += bits::count(queen(square, occupied));
        words += queen_word(flip(square, color));
        rest = r;
    }
}
