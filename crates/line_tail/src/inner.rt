// What stands after the ranks of a position field, and a square by its name: total, and no door.
ghost use Rattle.std.specs.Prelude.{◌≡◌};
ghost use Rattle.line_tail.specs.Words.{named_square, passant_of};
ghost use Rattle.line_tail.specs.Tail.{rights_fit, passant_fits, counters_fit_fields, state_said};
ghost use Rattle.line_tail.specs.Promises.{ReadsTail, ReadsSquare, ReadsWords};

use crate::counters::counter_or;
use crate::rights::{are_rights, rights};
use crate::words::{both_given, first, rest};
use chess::square::Square;
use position::State;
use position_further::inner::{at_home, counters_fit, just_passed};
use refusal::Refusal;
use text_in::inner::is;

// No square.
pub const NOWHERE: u8 = Square::COUNT as u8;

// The square of a file's letter and a rank's digit.
pub fn square(file: u8, rank: u8) -> u8
    ensures { ReadsSquare file rank result }
{
    if file < b'a' {
        return NOWHERE;
    }
    if file > b'h' {
        return NOWHERE;
    }
    if rank < b'1' {
        return NOWHERE;
    }
    if rank > b'8' {
        return NOWHERE;
    }
    8 * (rank - b'1') + (file - b'a')
}

fn named_square(s: &[u8]) -> u8
    ensures { result ≡ named_square s.now }
{
    if s.len() != 2 {
        return NOWHERE;
    }
    square(s[0], s[1])
}

fn passant(s: &[u8]) -> Option<u8>
    ensures { result ≡ passant_of s.now }
{
    if s.len() == 0 {
        return None;
    }
    if is(s, b"-") {
        return None;
    }
    Some(named_square(s))
}

fn rights_fit(board: &[u8], word: &[u8]) -> bool
    ensures { result ≡ rights_fit board.now word.now }
{
    if !are_rights(word) {
        return false;
    }
    at_home(board, rights(word))
}

fn passant_fits(board: &[u8], side: u8, rights: &[u8], word: &[u8]) -> bool
    ensures { result ≡ passant_fits board.now side rights.now word.now }
{
    if !both_given(rights, word) {
        return false;
    }
    just_passed(board, side, passant(word))
}

fn fields_fit(halfmoves: &[u8], moves: &[u8], more: &[u8]) -> bool
    ensures { result ≡ counters_fit_fields halfmoves.now moves.now more.now }
{
    if !both_given(halfmoves, moves) {
        return false;
    }
    if more.len() != 0 {
        return false;
    }
    counters_fit(counter_or(halfmoves, 0), counter_or(moves, 1))
}

fn state(side: u8, letters: &[u8], name: &[u8], halfmoves: &[u8], moves: &[u8]) -> State
    ensures { result ≡ state_said side letters.now name.now halfmoves.now moves.now }
{
    let rights = rights(letters);
    let passant = passant(name);
    State {
        side,
        rights,
        passant,
        halfmoves: counter_or(halfmoves, 0),
        moves: counter_or(moves, 1),
    }
}

// RIGHTS, PASSANT, COUNTER: the words after the side, and the one that must not be there.
fn read_words(
    board: &[u8],
    side: u8,
    rights: &[u8],
    passant: &[u8],
    halfmoves: &[u8],
    moves: &[u8],
    more: &[u8],
) -> Result<State, Refusal>
    ensures { ReadsWords board.now side rights.now passant.now halfmoves.now moves.now more.now result }
{
    if !rights_fit(board, rights) {
        return Err(Refusal::Rights);
    }
    if !passant_fits(board, side, rights, passant) {
        return Err(Refusal::Passant);
    }
    if !fields_fit(halfmoves, moves, more) {
        return Err(Refusal::Counter);
    }
    Ok(state(side, rights, passant, halfmoves, moves))
}

// The state that follows the ranks, from the side on, for the side that was read and on the board.
pub fn read(board: &[u8], side: u8, s: &[u8]) -> Result<State, Refusal>
    ensures { ReadsTail board.now side s.now result }
{
    let a = rest(s);
    let b = rest(a);
    let c = rest(b);
    let d = rest(c);
    read_words(
        board,
        side,
        first(a),
        first(b),
        first(c),
        first(d),
        first(rest(d)),
    )
}
