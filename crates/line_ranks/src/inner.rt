// The ranks of a position field, read in one pass: total, and no door.
ghost use Rattle.std.specs.Prelude.{◌≡◌, ◌≤◌};
ghost use Rattle.line_ranks.specs.Ranks.{piece_of, run_of};
ghost use Rattle.line_ranks.specs.PrivateSteps.{step_of};
ghost use Rattle.line_ranks.specs.Promises.{Places, Nothing};

use chess::piece::Piece;
use chess::square::Square;

// The squares of a rank.
const FILES: usize = 8;

// The 64 bytes of the board from a1 on, where the text is eight ranks; else nothing stands on it.
#[derive(Clone, Copy)]
pub struct Placed {
    pub ok: bool,
    pub board: [u8; Square::COUNT],
}

// Three digits for each letter of the alphabet, A at 3: half the code of its white piece, 0 for a letter that is no piece's.
const LETTERS: u64 = 0x0171_0806_0000_0100;

// The code of a letter's piece; that of an empty square for a byte that is none of the twelve letters. Small letters stand 32 after capitals, as a black
// piece's code is one more than the white one's. A match would be a jump for each letter, and no jump of a position is like the last.
fn piece(b: u8) -> u8
    ensures { result ≡ piece_of b }
{
    if b < b'B' {
        return Piece::EMPTY;
    }
    if b > b'r' {
        return Piece::EMPTY;
    }
    let letter = b % 32;
    if letter > 18 {
        return Piece::EMPTY;
    }
    let half = (LETTERS >> (3 * letter)) % 8;
    if half == 0 {
        return Piece::EMPTY;
    }
    2 * (half as u8) + b / 32 % 2
}

// How many empty squares a digit stands for; 0 for a byte that is none of 1 to 8.
fn run(b: u8) -> usize
    ensures { result ≡ run_of b }
{
    if b < b'1' {
        return 0;
    }
    if b > b'8' {
        return 0;
    }
    (b - b'0') as usize
}

fn nothing() -> Placed
    ensures { Nothing result }
{
    Placed {
        ok: false,
        board: [Piece::EMPTY; Square::COUNT],
    }
}

// What one byte of the ranks says: go to the rank below, a piece, so many empty squares, or no ranks.
#[derive(Clone, Copy)]
enum Next {
    Below,
    Piece(u8),
    Empty(usize),
    Wrong,
}

// `rank` ranks are to come below this one, and `file` squares of it are passed; `digit`: the byte before was a digit of it.
fn step(rank: usize, file: usize, digit: bool, b: u8) -> Next
    requires { file ≤ 8 }
    ensures { result ≡ step_of rank file digit b }
{
    if b == b'/' {
        if rank == 0 {
            return Next::Wrong;
        }
        if file != FILES {
            return Next::Wrong;
        }
        return Next::Below;
    }
    let empty = run(b);
    if empty > 0 {
        if digit {
            return Next::Wrong;
        }
        if file + empty > FILES {
            return Next::Wrong;
        }
        return Next::Empty(empty);
    }
    let code = piece(b);
    if code == Piece::EMPTY {
        return Next::Wrong;
    }
    if file >= FILES {
        return Next::Wrong;
    }
    Next::Piece(code)
}

// Ranks come from 8 to 1, files from a to h.
pub fn place(s: &[u8]) -> Placed
    ensures { Places s.now result }
{
    let mut board = [Piece::EMPTY; Square::COUNT];
    let mut rank: usize = 7;
    let mut file: usize = 0;
    let mut digit = false;
    for b in s {
        match step(rank, file, digit, *b) {
            Next::Below => {
                rank -= 1;
                file = 0;
                digit = false; // `8/8`: a rank begins anew
            }
            Next::Piece(code) => {
                board[FILES * rank + file] = code;
                file += 1;
                digit = false; // `1p1`: a letter ends the run
            }
            Next::Empty(empty) => {
                file += empty;
                digit = true;
            }
            Next::Wrong => {
                return nothing();
            }
        }
    }
    if rank != 0 {
        return nothing();
    }
    if file < FILES {
        return nothing();
    }
    Placed { ok: true, board }
}
