// Where each byte of a board stands: its squares sorted by byte, from planes of binary digits, a rank at a time.
#![tactic(auto)]

ghost use Rattle.std.specs.Prelude.{◌≡◌, ◌<◌, get_or};
ghost use Rattle.laws.specs.Tables.{tabulate};
ghost use Rattle.bits.specs.Bitboard.{has};
ghost use Rattle.position_planes.specs.PrivatePlanes.{Row, Rows, Covers, Sliced, rank_word, digits_of_rule, high_of, beyond_of, places_by};
ghost use Rattle.position_planes.specs.Sorted.{Sorts};

use chess::piece::Piece;
use chess::square::Square;

// In a table by bytes: a place for each below 14, among them 1, which is no code, and one for all others.
pub const PLACES: usize = Piece::BOARDS + 1;

pub const ONE: usize = 1;

pub const OTHERS: usize = Piece::BOARDS;

const RANKS: usize = 8;

const FILES: usize = 8;

// A byte as a word.
fn wide(byte: u8) -> u64
    ensures { (result ≡ byte) × (byte < 256) }
{
    byte as u64
}

// The eight bytes of a rank in one word, file a in the lowest.
fn word(board: &[u8; Square::COUNT], rank: usize) -> u64
    requires { rank < 8 }
    ensures { (result ≡ rank_word board.now rank) × Row board.now rank 8 }
{
    let mut word: u64 = 0;
    for file in 0..FILES {
        word |= wide(board[FILES * rank + file]) << (FILES * file);
    }
    word
}

// The eight words of the board. They are made before they are looked at, so that each is one read of memory.
fn words(board: &[u8; Square::COUNT]) -> [u64; RANKS]
    ensures { (result ≡ tabulate 8 (rank_word board.now)) × Rows board.now 8 }
{
    [
        word(board, 0),
        word(board, 1),
        word(board, 2),
        word(board, 3),
        word(board, 4),
        word(board, 5),
        word(board, 6),
        word(board, 7),
    ]
}

// One binary digit of each of a word's eight bytes, side by side: each step brings the digits half as far apart, down to one.
fn gathered(word: u64, digit: u64) -> u64
    requires { digit < 8 }
    ensures { result ≡ digits_of_rule word digit }
{
    let apart = (word >> digit) & 0x0101_0101_0101_0101;
    let two = apart | (apart >> 7);
    let four = two | (two >> 14);
    (four | (four >> 28)) & 0xff
}

// Four planes of the board, the squares whose byte has each of the four lowest binary digits; and the digits of all bytes together.
#[derive(Clone, Copy)]
struct Digits {
    a: u64,
    b: u64,
    c: u64,
    d: u64,
    all: u64,
}

// A rank at a time, a digit of all eight bytes at once: no square waits for another.
fn sliced(words: &[u64; RANKS]) -> Digits
    ensures { Sliced (λ rank. get_or words.now rank 0) 8 result.a result.b result.c result.d result.all }
{
    let mut a: u64 = 0;
    let mut b: u64 = 0;
    let mut c: u64 = 0;
    let mut d: u64 = 0;
    let mut all: u64 = 0;
    for (rank, &word) in words.iter().enumerate() {
        a |= gathered(word, 0) << (FILES * rank);
        b |= gathered(word, 1) << (FILES * rank);
        c |= gathered(word, 2) << (FILES * rank);
        d |= gathered(word, 3) << (FILES * rank);
        all |= word;
    }
    Digits { a, b, c, d, all }
}

// Digit 4 of each byte where one of its digits from 4 on is set.
fn high(word: u64) -> u64
    ensures { result ≡ high_of word }
{
    (word | (word >> 1)) | ((word >> 2) | (word >> 3))
}

// The squares whose byte is above 15.
fn beyond(board: &[u8; Square::COUNT]) -> u64
    ensures { result ≡ beyond_of board.now }
{
    let mut plane: u64 = 0;
    for rank in 0..RANKS {
        plane |= gathered(high(word(board, rank)), 4) << (FILES * rank);
    }
    plane
}

// The same, which most boards have none of: all bytes together say whether it is to be looked for.
fn above(board: &[u8; Square::COUNT], all: u64) -> u64
    requires { Rows board.now 8 × Covers (rank_word board.now) 8 all }
    ensures { result ≡ beyond_of board.now }
{
    if all & 0xf0f0_f0f0_f0f0_f0f0 == 0 {
        return 0;
    }
    beyond(board)
}

// The squares of each byte, from the planes of its four lowest digits: a byte of 14 or more is at the last place.
fn parted(a: u64, b: u64, c: u64, d: u64, beyond: u64) -> [u64; PLACES]
    ensures { result ≡ places_by (has a) (has b) (has c) (has d) (has beyond) }
{
    let within = !beyond;
    let low = within & !d;
    let high = within & d;
    let none = low & !c & !b;
    let pawns = low & !c & b;
    let knights = low & c & !b;
    let kings = low & c & b;
    let bishops = high & !c & !b;
    let rooks = high & !c & b;
    let queens = high & c & !b;
    [
        none & !a,
        none & a,
        pawns & !a,
        pawns & a,
        knights & !a,
        knights & a,
        kings & !a,
        kings & a,
        bishops & !a,
        bishops & a,
        rooks & !a,
        rooks & a,
        queens & !a,
        queens & a,
        beyond | (d & c & b),
    ]
}

// The squares of each byte: at a piece's code where it stands, at 1 and at 14 the bytes that are no code.
pub fn sorted(board: &[u8; Square::COUNT]) -> [u64; PLACES]
    ensures { Sorts board.now result }
{
    let words = words(board);
    let digits = sliced(&words);
    let beyond = above(board, digits.all);
    parted(digits.a, digits.b, digits.c, digits.d, beyond)
}
