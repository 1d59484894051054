// The 14 bitboards: the tests that they alone decide, and the one way to them from bytes.
#![tactic(auto)]

ghost use Rattle.std.specs.Prelude.{◌≡◌, ◌≤◌, ◌<◌, length};
ghost use Rattle.position_boards.specs.PrivateTested.{shared_by, colour_squares, boards_by};
ghost use Rattle.position_boards.specs.Promises.{TestsBoards, Overlaps, Splits, Makes};

use chess::color::{BLACK_BOARD, Color, WHITE_BOARD};
use chess::kind::Kind;
use chess::piece::Piece;
use chess::square::Square;
use position_planes::{ONE, OTHERS, PLACES};

// The bitboards of 64 bytes; `coded` is whether each byte is 0 or a piece's code.
#[derive(Clone, Copy)]
pub struct Boards {
    pub bitboards: [u64; Piece::BOARDS],
    pub coded: bool,
}

// The first of the pieces' boards.
const PIECES: usize = Color::COUNT;

// The squares that two or more piece boards have, the boards one after the other.
fn shared(bitboards: &[u64]) -> u64
    requires { length bitboards.now ≡ 14 }
    ensures { result ≡ shared_by bitboards.now 2 }
{
    let mut once: u64 = 0;
    let mut twice: u64 = 0;
    for &b in &bitboards[PIECES..Piece::BOARDS] {
        twice = once & b | twice;
        once = b | once;
    }
    twice
}

// A colour's piece boards together.
fn unite(bitboards: &[u64], color: usize) -> u64
    requires { (14 ≤ length bitboards.now) × (color < 2) }
    ensures { result ≡ colour_squares bitboards.now color }
{
    let mut all: u64 = 0;
    for n in 0..Kind::COUNT {
        all = bitboards[PIECES + Color::COUNT * n + color] | all;
    }
    all
}

// Whether there are 14, the pieces' don't overlap, and the colours' are their unions.
pub fn sound(bitboards: &[u64]) -> bool
    ensures { TestsBoards bitboards.now result }
{
    if bitboards.len() != Piece::BOARDS {
        return false;
    }
    if shared(bitboards) != 0 {
        return false;
    }
    let white = unite(bitboards, WHITE_BOARD);
    if bitboards[WHITE_BOARD] != white {
        return false;
    }
    let black = unite(bitboards, BLACK_BOARD);
    bitboards[BLACK_BOARD] == black
}

// The squares where the first test fails: two or more piece boards have them. None unless there are 14 boards.
pub fn overlap(bitboards: &[u64]) -> u64
    ensures { Overlaps bitboards.now result }
{
    if bitboards.len() != Piece::BOARDS {
        return 0;
    }
    shared(bitboards)
}

// The squares where the second fails: a colour's board, White's or Black's, isn't the union of its pieces'. None unless there are 14.
pub fn split(bitboards: &[u64]) -> u64
    ensures { Splits bitboards.now result }
{
    if bitboards.len() != Piece::BOARDS {
        return 0;
    }
    let white = unite(bitboards, WHITE_BOARD);
    let black = unite(bitboards, BLACK_BOARD);
    bitboards[WHITE_BOARD] ^ white | bitboards[BLACK_BOARD] ^ black
}

// The boards of the sorted bytes: a piece's as it is, a colour's the union of its pieces'.
fn boards_of(squares: &[u64; PLACES]) -> [u64; Piece::BOARDS]
    ensures { result ≡ boards_by squares.now }
{
    let mut boards: [u64; Piece::BOARDS] = [0; Piece::BOARDS];
    boards[WHITE_BOARD] = unite(squares, WHITE_BOARD);
    boards[BLACK_BOARD] = unite(squares, BLACK_BOARD);
    // Board by board, since the library's copy would put them all in memory first.
    for code in PIECES..Piece::BOARDS {
        boards[code] = squares[code];
    }
    boards
}

// The one way from bytes to bitboards. A byte that is no code stands on none of them, and then `coded` is false.
pub fn bitboards_of(board: &[u8; Square::COUNT]) -> Boards
    ensures { Makes board.now result }
{
    let squares = position_planes::sorted(board);
    let bitboards = boards_of(&squares);
    let strays = squares[ONE] | squares[OTHERS];
    Boards {
        bitboards,
        coded: strays == 0,
    }
}
