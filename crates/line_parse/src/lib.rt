// What one line of a collection says, read by value: the state, the half points and the board, or a refusal.
#![tactic(auto)]

ghost use Rattle.std.specs.Prelude.{◌≡◌};
ghost use Rattle.text_in.specs.Text.{place_in};
ghost use Rattle.line_parse.specs.Line.{sides, results, with_result, fields_say};
ghost use Rattle.line_tail.specs.Words.{word_of};
ghost use Rattle.line_parse.specs.Promises.{Says, Parses, Turned};

use chess::color::Color;
use chess::piece::Piece;
use chess::square::Square;
use line_cut::LINE;
use line_ranks::inner::place;
use line_tail::inner::read;
use position::State;
use refusal::Refusal;
use text_in::inner::{find, is, is_text, skip_spaces, trim};

// What the line says, the part of the position that goes by value and the half points, and its board; nothing stands there where it is refused.
#[derive(Clone, Copy)]
pub struct Parsed {
    pub answer: Result<(State, u8), Refusal>,
    pub board: [u8; Square::COUNT],
}

fn refused(refusal: Refusal) -> Parsed
    ensures { Turned refusal result }
{
    Parsed {
        answer: Err(refusal),
        board: [Piece::EMPTY; Square::COUNT],
    }
}

// What is neither side, and what is no result.
const NO_SIDE: u8 = 2;

const NO_RESULT: u8 = 3;

// The side that follows the ranks, or none.
fn side(s: &[u8]) -> u8
    ensures { result ≡ place_in sides (word_of s.now) }
{
    let rest = skip_spaces(s);
    let end = find(rest, b' ');
    let word = &rest[..end];
    if is(word, b"w") {
        return Color::WHITE.index();
    }
    if is(word, b"b") {
        return Color::BLACK.index();
    }
    NO_SIDE
}

// The half points of a result, or none.
fn half_points(res: &[u8]) -> u8
    ensures { result ≡ place_in results res.now }
{
    if is(res, b"0-1") {
        return 0;
    }
    if is(res, b"1/2-1/2") {
        return 1;
    }
    if is(res, b"1-0") {
        return 2;
    }
    NO_RESULT
}

// RESULT.
fn with_result(board: [u8; Square::COUNT], res: &[u8], state: State) -> Parsed
    ensures { Says (with_result board res.now state) result }
{
    let half = half_points(res);
    if half >= NO_RESULT {
        return refused(Refusal::Result);
    }
    Parsed {
        answer: Ok((state, half)),
        board,
    }
}

// PLACE, SIDE, RIGHTS, PASSANT, COUNTER, RESULT.
fn read_fields(field: &[u8], res: &[u8]) -> Parsed
    ensures { Says (fields_say field.now res.now) result }
{
    let end = find(field, b' ');
    let placed = place(&field[..end]);
    if !placed.ok {
        return refused(Refusal::Place);
    }
    let rest = &field[end..];
    let side = side(rest);
    if side >= NO_SIDE {
        return refused(Refusal::Side);
    }
    let board = placed.board;
    let told = read(&board, side, rest);
    match told {
        Err(refusal) => refused(refusal),
        Ok(state) => with_result(board, res, state),
    }
}

// LONG, BYTE, FIELD, and then what the two fields call for.
pub fn parse(line: &[u8]) -> Parsed
    ensures { Parses line.now result }
{
    if line.len() > LINE {
        return refused(Refusal::Long);
    }
    if !is_text(line) {
        return refused(Refusal::Byte);
    }
    let end = find(line, b';');
    if end == line.len() {
        return refused(Refusal::Field);
    }
    let rest = &line[end + 1..];
    let next = find(rest, b';');
    read_fields(trim(&line[..end]), trim(&rest[..next]))
}
