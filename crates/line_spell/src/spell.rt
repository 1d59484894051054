// The words of a position's line, put into a buffer that has room for them.
ghost use Rattle.std.specs.Prelude.{◌≡◌, [], ◌∷◌, ◌+◌, ◌≤◌, length};
ghost use Rattle.text_in.specs.Text.{space};
ghost use Rattle.text_out.specs.Text.{Wrote, Adds};
ghost use Rattle.line_parse.specs.Line.{sides, results};
ghost use Rattle.line_text.specs.Spelt.{letter_of, spelt, rank_of, rank_text, placement};
ghost use Rattle.line_text.specs.Words.{letter_for, rights_letters, rights_text, passant_text, counter_text};
ghost use Rattle.line_text.specs.Lines.{text_at, state_fields, parted, position_text, line_text};
ghost use Rattle.line_spell.specs.Promises.{SquaresRoom, RankRoom};

use position::State;
use position_further::Rights;

// The squares of a rank.
const FILES: usize = 8;

// The greatest counter.
const MOST: u16 = 9999;

// The letter of a piece's code; 0 for any other number.
fn letter(code: u8) -> u8
    ensures { result ≡ letter_of code }
{
    match code {
        2 => b'P',
        3 => b'p',
        4 => b'N',
        5 => b'n',
        6 => b'K',
        7 => b'k',
        8 => b'B',
        9 => b'b',
        10 => b'R',
        11 => b'r',
        12 => b'Q',
        13 => b'q',
        _ => 0,
    }
}

// Squares from left to right, with each run of empty ones as one digit.
fn put_squares(squares: &[u8], line: &mut [u8], at: usize) -> usize
    requires { SquaresRoom squares.now line.old at }
    ensures { Wrote line.old line.new at result (spelt 0 squares.now) }
{
    let mut end = at;
    let mut run: u8 = 0;
    for code in squares {
        if *code == 0 {
            run += 1;
        } else if run == 0 {
            line[end] = letter(*code);
            end += 1;
        } else {
            line[end] = b'0' + run;
            line[end + 1] = letter(*code);
            end += 2;
            run = 0;
        }
    }
    if run == 0 {
        return end;
    }
    line[end] = b'0' + run;
    end + 1
}

// The squares of a rank; fewer where the board is too short for it.
fn squares_of(board: &[u8], rank: usize) -> &[u8]
    requires { rank ≤ 7 }
    ensures { result.now ≡ rank_of rank board.now }
{
    let from = FILES * rank;
    if board.len() < from {
        return &board[..0];
    }
    let rest = &board[from..];
    if rest.len() < FILES {
        return rest;
    }
    &rest[..FILES]
}

// A rank from file a on.
fn put_rank(board: &[u8], rank: usize, line: &mut [u8], at: usize) -> usize
    requires { RankRoom rank line.old at }
    ensures { Wrote line.old line.new at result (rank_text rank board.now) }
{
    let squares = squares_of(board, rank);
    put_squares(squares, line, at)
}

// Ranks 8 to 1, with `/` between two.
fn put_ranks(board: &[u8], line: &mut [u8]) -> usize
    requires { 71 ≤ length line.old }
    ensures { Adds line.old 0 (placement board.now) line.new result }
{
    let mut end = 0;
    for rank in (1..8).rev() {
        end = put_rank(board, rank, line, end);
        line[end] = b'/';
        end += 1;
    }
    put_rank(board, 0, line, end)
}

pub(crate) fn put(out: &mut [u8], at: usize, s: &[u8]) -> usize
    ensures { Adds out.old at s.now out.new result }
{
    text_out::put(out, at, s).unwrap_or(at)
}

// The space, and the side.
fn put_side(out: &mut [u8], at: usize, side: u8) -> usize
    ensures { Adds out.old at (space ∷ text_at sides side) out.new result }
{
    if side == 0 {
        return put(out, at, b" w");
    }
    if side == 1 {
        return put(out, at, b" b");
    }
    put(out, at, b" ")
}

// The letter of a right that there is.
fn put_letter(out: &mut [u8], at: usize, right: bool, letter: u8) -> usize
    ensures { Adds out.old at (letter_for right letter) out.new result }
{
    if !right {
        return at;
    }
    let text = [letter];
    put(out, at, &text)
}

fn put_letters(out: &mut [u8], at: usize, rights: Rights) -> usize
    requires { at + 4 ≤ length out.old }
    ensures { Adds out.old at (rights_letters rights) out.new result }
{
    let second = put_letter(out, at, rights.white_short, b'K');
    let third = put_letter(out, second, rights.white_long, b'Q');
    let fourth = put_letter(out, third, rights.black_short, b'k');
    put_letter(out, fourth, rights.black_long, b'q')
}

// The space, and the rights' letters or `-`.
fn put_rights(out: &mut [u8], at: usize, rights: Rights) -> usize
    requires { at + 5 ≤ length out.old }
    ensures { Adds out.old at (space ∷ rights_text rights) out.new result }
{
    let begin = put(out, at, b" ");
    let end = put_letters(out, begin, rights);
    if end != begin {
        return end;
    }
    put(out, begin, b"-")
}

// The space, and the en passant square or `-`.
fn put_passant(out: &mut [u8], at: usize, passant: Option<u8>) -> usize
    ensures { Adds out.old at (space ∷ passant_text passant) out.new result }
{
    let Some(square) = passant else {
        return put(out, at, b" -");
    };
    let text = [b' ', b'a' + square % 8, b'1' + square / 8];
    put(out, at, &text)
}

// The space, and a counter; no number past the greatest is one.
fn put_counter(out: &mut [u8], at: usize, n: u16) -> usize
    requires { at + 5 ≤ length out.old }
    ensures { Adds out.old at (space ∷ counter_text n) out.new result }
{
    let begin = put(out, at, b" ");
    if n > MOST {
        return begin;
    }
    text_out::decimal(out, begin, n as u64).unwrap_or(begin)
}

fn put_counters(out: &mut [u8], at: usize, halfmoves: u16, moves: u16) -> usize
    requires { at + 10 ≤ length out.old }
    ensures { Adds out.old at (space ∷ parted (counter_text halfmoves ∷ counter_text moves ∷ [])) out.new result }
{
    let second = put_counter(out, at, halfmoves);
    put_counter(out, second, moves)
}

// All fields behind the placement, each after one space.
fn put_state(out: &mut [u8], at: usize, state: State) -> usize
    requires { at + 20 ≤ length out.old }
    ensures { Adds out.old at (space ∷ parted (state_fields state)) out.new result }
{
    let rights = put_side(out, at, state.side);
    let square = put_rights(out, rights, state.rights);
    let passant = state.passant;
    let counters = put_passant(out, square, passant);
    put_counters(out, counters, state.halfmoves, state.moves)
}

fn put_result(out: &mut [u8], at: usize, half: u8) -> usize
    ensures { Adds out.old at (text_at results half) out.new result }
{
    if half == 0 {
        return put(out, at, b"0-1");
    }
    if half == 1 {
        return put(out, at, b"1/2-1/2");
    }
    if half == 2 {
        return put(out, at, b"1-0");
    }
    at
}

// The fields of a position, with one space between two.
pub(crate) fn position(board: &[u8], state: State, line: &mut [u8]) -> usize
    requires { 91 ≤ length line.old }
    ensures { Adds line.old 0 (position_text board.now state) line.new result }
{
    let ranks = put_ranks(board, line);
    put_state(line, ranks, state)
}

pub(crate) fn line(board: &[u8], state: State, half: u8, line: &mut [u8]) -> usize
    requires { 99 ≤ length line.old }
    ensures { Adds line.old 0 (line_text board.now state half) line.new result }
{
    let end = position(board, state, line);
    let result = put(line, end, b";");
    put_result(line, result, half)
}
