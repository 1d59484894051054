// A record by value: what its 34 bytes say, and the bytes of a position. Total, and no doors.
ghost use Rattle.std.specs.Prelude.{◌≡◌, length, get_or};
ghost use Rattle.position_boards.specs.Boards.{is_byte};
ghost use Rattle.position_odds.specs.Named.{lowest_wrong};
ghost use Rattle.store_record.specs.Record.{two_squares, board_in, is_code};
ghost use Rattle.store_record.specs.Promises.{SaysPiece, SaysStored, Packs, TurnsAway};

use chess::piece::{FIRST, LAST, Piece};
use chess::square::Square;
use line::inner::Loaded;
use position::of_side;
use refusal::Refusal;

// The bytes of a record; where its side and its half points stand.
pub const RECORD: usize = 34;

const SIDE: usize = 32;

const HALF: usize = 33;

// What is neither side, and what is no result.
const NO_SIDE: u8 = 2;

pub(crate) const NO_RESULT: u8 = 3;

// What is read of a record that is refused: nothing stands on its board.
fn refused(refusal: Refusal) -> Loaded
    ensures { TurnsAway refusal result }
{
    let board = [Piece::EMPTY; Square::COUNT];
    let made = position_boards::bitboards_of(&board);
    let bitboards = made.bitboards;
    Loaded {
        answer: Err(refusal),
        bitboards,
        board,
    }
}

// The 64 squares, two of them in a byte: the lower in its low half.
fn unpack(piece: &[u8]) -> [u8; Square::COUNT]
    requires { length piece.now ≡ 34 }
    ensures { result ≡ board_in piece.now }
{
    let mut board = [Piece::EMPTY; Square::COUNT];
    for i in 0..SIDE {
        let pair = piece[i];
        board[2 * i] = pair % 16;
        board[2 * i + 1] = pair / 16 % 16;
    }
    board
}

// Whether a board may hold the byte.
fn is_byte(byte: u8) -> bool
    ensures { result ≡ is_byte byte }
{
    if byte == Piece::EMPTY {
        return true;
    }
    if byte < FIRST {
        return false;
    }
    byte <= LAST
}

// The lowest square whose byte no board may hold; 64 where each may stand.
fn lowest_stray(board: &[u8; Square::COUNT]) -> u8
    ensures { result ≡ lowest_wrong (is_code board.now) }
{
    for (k, &byte) in board.iter().enumerate() {
        if !is_byte(byte) {
            return k as u8;
        }
    }
    Square::COUNT as u8
}

// LENGTH, CODE, SIDE, RESULT. The square of CODE is looked for only where the bitboards tell that there is one.
pub fn read(piece: &[u8]) -> Loaded
    ensures { SaysPiece piece.now result }
{
    if piece.len() != RECORD {
        return refused(Refusal::Length);
    }
    let board = unpack(piece);
    let made = position_boards::bitboards_of(&board);
    if !made.coded {
        return refused(Refusal::Code(lowest_stray(&board)));
    }
    let side = piece[SIDE];
    if side >= NO_SIDE {
        return refused(Refusal::Side);
    }
    let half = piece[HALF];
    if half >= NO_RESULT {
        return refused(Refusal::Result);
    }
    let bitboards = made.bitboards;
    Loaded {
        answer: Ok((of_side(side), half)),
        bitboards,
        board,
    }
}

// LENGTH of the run, ABSENT, and then what the record says.
pub fn read_at(run: &[u8], number: u64) -> Loaded
    ensures { SaysStored run.now number result }
{
    if run.len() % RECORD != 0 {
        return refused(Refusal::Length);
    }
    if number >= (run.len() / RECORD) as u64 {
        return refused(Refusal::Absent);
    }
    let start = RECORD * number as usize;
    let end = start + RECORD;
    read(&run[start..end])
}

fn at(s: &[u8], k: usize) -> u8
    ensures { result ≡ get_or s.now k 0 }
{
    if k < s.len() {
        return s[k];
    }
    0
}

fn pair(low: u8, high: u8) -> u8
    ensures { result ≡ two_squares low high }
{
    low % 16 + high % 16 * 16
}

// The record of a board, a side and half points.
pub fn pack(board: &[u8], side: u8, half: u8) -> [u8; RECORD]
    ensures { Packs board.now side half result }
{
    let mut record = [0u8; RECORD];
    for i in 0..SIDE {
        record[i] = pair(at(board, 2 * i), at(board, 2 * i + 1));
    }
    record[SIDE] = side;
    record[HALF] = half;
    record
}
