// Whether 14 bitboards and 64 board bytes are a consistent position.
#![tactic(auto)]

ghost use Rattle.std.specs.Prelude.{◌≡◌, ◌<◌, ◌*◌, ◌/◌, ◌%◌, ◌^◌, eqb, length};
ghost use Rattle.position_consistent.specs.PrivateTested.{chosen_by, plane_of, file_codes, file_right, files_right};
ghost use Rattle.position_consistent.specs.Promises.{Fits};

use chess::color::Color;
use chess::piece::Piece;
use chess::square::Square;

// The first of the pieces' boards.
const PIECES: usize = Color::COUNT;

// A board where its code has a binary digit; the empty one where it hasn't.
fn chosen(board: u64, code: usize, digit: usize) -> u64
    requires { digit < 4 }
    ensures { result ≡ chosen_by board code digit }
{
    if (code >> digit) & 1 != 0 {
        return board;
    }
    0
}

// The squares of the pieces whose code has a binary digit.
fn plane(bitboards: &[u64], digit: usize) -> u64
    requires { (length bitboards.now ≡ 14) × (digit < 4) }
    ensures { result ≡ plane_of bitboards.now digit }
{
    let mut all: u64 = 0;
    for code in PIECES..Piece::BOARDS {
        all = chosen(bitboards[code], code, digit) | all;
    }
    all
}

// A file has a square in each of the 8 ranks, and they are 8 apart.
const FILES: usize = 8;

const RANKS: usize = 8;

// A file's codes are one word, a byte for each rank.
const BITS: usize = 8;

const A_FILE: u64 = 0x0101_0101_0101_0101;

// The codes on a file by their four digits: a byte for each rank.
fn file_codes(ones: u64, twos: u64, fours: u64, eights: u64, file: usize) -> u64
    requires { file < 8 }
    ensures { result ≡ file_codes ones twos fours eights file }
{
    let low = (ones >> file) & A_FILE | ((twos >> file) & A_FILE) << 1;
    let high = ((fours >> file) & A_FILE) << 2 | ((eights >> file) & A_FILE) << 3;
    low | high
}

// The code of a rank among those of a file.
fn code_at(codes: u64, rank: usize) -> u8
    requires { rank < 8 }
    ensures { result ≡ codes / 2 ^ (8 * rank) % 16 }
{
    ((codes >> (BITS * rank)) & 15) as u8
}

// 0 where each byte of a file is the code there. No branch, and no table, so that the ranks go side by side.
fn file_amiss(codes: u64, board: &[u8], file: usize) -> u8
    requires { (length board.now ≡ 64) × (file < 8) }
    ensures { eqb result 0 ≡ file_right board.now codes file }
{
    let mut amiss: u8 = 0;
    for rank in 0..RANKS {
        let code = code_at(codes, rank);
        amiss = board[FILES * rank + file] ^ code | amiss;
    }
    amiss
}

// 0 where each byte is the code whose binary digits the four planes have there.
fn bytes_amiss(board: &[u8], ones: u64, twos: u64, fours: u64, eights: u64) -> u8
    requires { length board.now ≡ 64 }
    ensures { eqb result 0 ≡ files_right board.now ones twos fours eights }
{
    let mut amiss: u8 = 0;
    for file in 0..FILES {
        let codes = file_codes(ones, twos, fours, eights, file);
        amiss = file_amiss(codes, board, file) | amiss;
    }
    amiss
}

// Whether the shape is right and the position consistent.
pub fn fits(bitboards: &[u64], board: &[u8]) -> bool
    ensures { Fits bitboards.now board.now result }
{
    if board.len() != Square::COUNT {
        return false;
    }
    if !position_boards::sound(bitboards) {
        return false;
    }
    let ones = plane(bitboards, 0);
    let twos = plane(bitboards, 1);
    let fours = plane(bitboards, 2);
    let eights = plane(bitboards, 3);
    bytes_amiss(board, ones, twos, fours, eights) == 0
}
