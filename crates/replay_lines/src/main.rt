// Reads a collection on standard input and says of each line what the reader makes of it: the file stdout holds what document 01
// makes of it (oracle/README.md, lines.answers). A line that is loaded is written, read again and compared, with no word where all is as it was.
#![tactic(auto)]

ghost use Rattle.std.specs.Prelude.{◌≤◌, length};

use chess::piece::Piece;
use chess::square::Square;
use position::State;
use position_further::Rights;
use refusal::Refusal;
use std::io;
use text_in::inner::{is, past, text_before};

// More than the recorded lines take. One that did not fit would have no row, and the run would fail.
const ROOM: usize = 0x40000;

fn main(rt: HostRuntime) -> io::Result<()> {
    let mut collection = [0u8; ROOM];
    let n = stream_io::read_full(
        rt.stderr(),
        &mut rt.stdin(),
        &mut collection,
        b"replay_lines: standard input",
    );
    read_all(&rt, &collection[..n])
}

// A line ends before LF or the end of the input.
#[tactic(auto, using(text_in::proofs::Parts::past_found, text_in::proofs::Parts::left_shorter))]
fn read_all(rt: &impl Print, collection: &[u8]) -> io::Result<()> {
    let mut rest = collection;
    while rest.len() > 0 {
        let line = text_before(rest, b'\n');
        let next = past(rest, b'\n');
        read(rt, &line[..size(line, next)])?;
        rest = &rest[next..];
    }
    Ok(())
}

// How many bytes of a line are read: one CR before an LF is dropped. The last line may end without LF, and then keeps its CR.
fn size(line: &[u8], next: usize) -> usize
    ensures { result ≤ length line.now }
{
    let n = line.len();
    if n == 0 {
        return 0;
    }
    if next == n {
        return n;
    }
    if line[n - 1] == b'\r' {
        return n - 1;
    }
    n
}

// A refused line has no field, and one that is read has one: else the row is `field`.
fn read(rt: &impl Print, text: &[u8]) -> io::Result<()> {
    let mut bitboards = [0u64; Piece::BOARDS];
    let mut board = [0u8; Square::COUNT];
    let field = line::position_field(text).len();
    match line::read_line(text, &mut bitboards, &mut board) {
        Err(r) => {
            refused(rt, r, field)?;
        }
        Ok((state, half)) => {
            if !comes_back(&bitboards, &board, state, half) {
                write(rt, b"written otherwise ")?;
            }
            natural(rt, state.side as u64)?;
            next(rt, half as u64)?;
            next(rt, blanks(text) as u64)?;
            next(rt, field as u64)?;
            codes(rt, board)?;
            rest(rt, state)?;
        }
    }
    write(rt, b"\n")
}

// No line that is written is longer.
const LONGEST: usize = 99;

// Whether the line of the position, read again, is the same position with the same half points.
fn comes_back(bitboards: &[u64], board: &[u8], state: State, half: u8) -> bool {
    let mut text = [0u8; LONGEST];
    match line_write::write_line(bitboards, board, state, Some(half), &mut text) {
        Err(_) => false,
        Ok(n) => reads_as(&text, n, board, state, half),
    }
}

// Of the buffer the first n bytes are the line.
fn reads_as(text: &[u8], n: usize, board: &[u8], state: State, half: u8) -> bool {
    if n > text.len() {
        return false;
    }
    let mut bitboards_read = [0u64; Piece::BOARDS];
    let mut board_read = [0u8; Square::COUNT];
    match line::read_line(&text[..n], &mut bitboards_read, &mut board_read) {
        Err(_) => false,
        Ok((state_read, half_read)) => {
            if !same(state_read, state) {
                return false;
            }
            if half_read != half {
                return false;
            }
            is(board, &board_read)
        }
    }
}

// Whether two states say the same.
fn same(a: State, b: State) -> bool {
    if a.side != b.side {
        return false;
    }
    let rights = a.rights;
    let others = b.rights;
    if !same_rights(rights, others) {
        return false;
    }
    let passant = a.passant;
    let other = b.passant;
    if number(passant) != number(other) {
        return false;
    }
    if a.halfmoves != b.halfmoves {
        return false;
    }
    a.moves == b.moves
}

fn same_rights(a: Rights, b: Rights) -> bool {
    if one(a.white_short) != one(b.white_short) {
        return false;
    }
    if one(a.white_long) != one(b.white_long) {
        return false;
    }
    if one(a.black_short) != one(b.black_short) {
        return false;
    }
    one(a.black_long) == one(b.black_long)
}

fn one(held: bool) -> u64 {
    if held {
        return 1;
    }
    0
}

// No square is past the board.
fn number(passant: Option<u8>) -> u64 {
    match passant {
        None => 64,
        Some(square) => square as u64,
    }
}

fn refused(rt: &impl Print, r: Refusal, field: usize) -> io::Result<()> {
    if field != 0 {
        return write(rt, b"field");
    }
    write(rt, b"refused ")?;
    natural(rt, r.number() as u64)
}

fn write(rt: &impl Print, text: &[u8]) -> io::Result<()> {
    rt.write_all(text)
}

fn natural(rt: &impl Print, n: u64) -> io::Result<()> {
    rt.print(n)
}

fn next(rt: &impl Print, n: u64) -> io::Result<()> {
    write(rt, b" ")?;
    natural(rt, n)
}

// How many blanks a text begins with: the position field comes after them.
fn blanks(text: &[u8]) -> usize {
    for (i, b) in text.iter().enumerate() {
        if *b != b' ' && *b != b'\t' && *b != b'\r' {
            return i;
        }
    }
    text.len()
}

// A space and a code for each square.
const ROW: usize = 65;

// The 64 codes from a1 to h8, a hexadecimal digit each.
fn codes(rt: &impl Print, board: [u8; Square::COUNT]) -> io::Result<()> {
    let mut digits = [b' '; ROW];
    for (k, code) in board.iter().enumerate() {
        digits[k + 1] = hex(*code);
    }
    write(rt, &digits)
}

fn hex(code: u8) -> u8 {
    if code < 10 {
        return b'0' + code;
    }
    if code < 16 {
        return b'a' + (code - 10);
    }
    b'?'
}

// The four rights, a digit each; the square's number or `none`; both counters.
fn rest(rt: &impl Print, state: State) -> io::Result<()> {
    let rights = state.rights;
    next(rt, one(rights.white_short))?;
    natural(rt, one(rights.white_long))?;
    natural(rt, one(rights.black_short))?;
    natural(rt, one(rights.black_long))?;
    let passant = state.passant;
    passed(rt, passant)?;
    next(rt, state.halfmoves as u64)?;
    next(rt, state.moves as u64)
}

fn passed(rt: &impl Print, passant: Option<u8>) -> io::Result<()> {
    match passant {
        None => write(rt, b" none"),
        Some(square) => next(rt, square as u64),
    }
}
