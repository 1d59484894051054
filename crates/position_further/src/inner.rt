// Whether the board bears out what a position says beyond its pieces and its side: total, and no door.
ghost use Rattle.std.specs.Prelude.{◌≡◌};
ghost use Rattle.position_further.specs.Rule.{stands, home};
ghost use Rattle.position_further.specs.Promises.{AtHome, JustPassed, CountersFit};

use crate::Rights;
use chess::color::WHITE;
use chess::inner::index;
use chess::piece::{BLACK_KING, BLACK_PAWN, BLACK_ROOK, Piece, WHITE_KING, WHITE_PAWN, WHITE_ROOK};
use chess::square::A8;

// Where kings and rooks are at home, beside a8.
const A1: u8 = 0;

const E1: u8 = 4;

const H1: u8 = 7;

const E8: u8 = 60;

const H8: u8 = chess::square::LAST;

// How far it is from a square to the one above.
const UP: u8 = chess::square::UP as u8;

// The ranks, from 0, that a pawn passes over.
const SIXTH: u8 = 5;

const THIRD: u8 = 2;

// Whether this stands on the square; nothing stands past the end of the board.
fn stands(board: &[u8], square: u8, code: u8) -> bool
    ensures { result ≡ stands board.now square code }
{
    let i = index(square);
    if i < board.len() {
        return board[i] == code;
    }
    Piece::EMPTY == code
}

// A right's king and rook at home, where there is the right.
fn home(board: &[u8], right: bool, at: u8, king: u8, corner: u8, rook: u8) -> bool
    ensures { result ≡ home board.now right at king corner rook }
{
    if !right {
        return true;
    }
    if !stands(board, at, king) {
        return false;
    }
    stands(board, corner, rook)
}

// Every right has its king and rook at home.
pub fn at_home(board: &[u8], rights: Rights) -> bool
    ensures { AtHome board.now rights result }
{
    if !home(board, rights.white_short, E1, WHITE_KING, H1, WHITE_ROOK) {
        return false;
    }
    if !home(board, rights.white_long, E1, WHITE_KING, A1, WHITE_ROOK) {
        return false;
    }
    if !home(board, rights.black_short, E8, BLACK_KING, H8, BLACK_ROOK) {
        return false;
    }
    home(board, rights.black_long, E8, BLACK_KING, A8, BLACK_ROOK)
}

// The en passant square is empty, and the pawn of the other side that passed over it stands beyond it.
pub fn just_passed(board: &[u8], side: u8, passant: Option<u8>) -> bool
    ensures { JustPassed board.now side passant result }
{
    let Some(square) = passant else {
        return true;
    };
    if !stands(board, square, Piece::EMPTY) {
        return false;
    }
    if side == WHITE {
        if square / UP != SIXTH {
            return false;
        }
        return stands(board, square - UP, BLACK_PAWN);
    }
    if square / UP != THIRD {
        return false;
    }
    stands(board, square + UP, WHITE_PAWN)
}

// The greatest number that a counter shows.
pub const MOST: u16 = 9999;

// Half moves 0 to 9999, moves 1 to 9999.
pub fn counters_fit(halfmoves: u16, moves: u16) -> bool
    ensures { CountersFit halfmoves moves result }
{
    if halfmoves > MOST {
        return false;
    }
    if moves == 0 {
        return false;
    }
    moves <= MOST
}
