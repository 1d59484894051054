// Questions of attacks: a piece's, those on a square, the least attacker, check, and the step tables, which are a piece's attacks too.
use crate::reply::{Reply, byte, yes_or_no};
use chess::piece::Piece;
use exchange_order::ORDER;
use position::State;
use refusal::Refusal;
use replay_question::NUMBERS;
use text_in::inner::is;

pub(crate) fn answer(
    word: &[u8],
    n: [u64; NUMBERS],
    bitboards: &[u64],
    board: &[u8],
    state: State,
) -> Reply {
    if is(word, b"attacks_to") {
        return found(attack_to::attacks_to(bitboards, board, state, byte(n[0]), n[1]));
    }
    if is(word, b"attacked") {
        return told(attack_to::is_attacked(bitboards, board, state, byte(n[0]), byte(n[1])));
    }
    if is(word, b"check") {
        return told(attack_to::is_check(bitboards, board, state, byte(n[0])));
    }
    if is(word, b"lvp") {
        let order = ORDER;
        return least(exchange_least::lvp(bitboards, board, state, &order, byte(n[0]), n[1], n[2]));
    }
    of_piece(word, byte(n[0]), byte(n[1]), n[2])
}

fn of_piece(word: &[u8], first: u8, second: u8, occupied: u64) -> Reply {
    if is(word, b"knight") {
        return found(attack::piece_attacks(Piece::WHITE_KNIGHT.code(), first, 0));
    }
    if is(word, b"king") {
        return found(attack::piece_attacks(Piece::WHITE_KING.code(), first, 0));
    }
    if is(word, b"pawn") {
        return found(attack::piece_attacks(pawn(first), second, 0));
    }
    if is(word, b"piece_attacks") {
        return found(attack::piece_attacks(first, second, occupied));
    }
    Reply::Nothing
}

fn pawn(color: u8) -> u8 {
    if color == 0 {
        return Piece::WHITE_PAWN.code();
    }
    Piece::BLACK_PAWN.code()
}

fn found(found: Result<u64, Refusal>) -> Reply {
    match found {
        Ok(b) => Reply::Natural(b),
        Err(r) => Reply::Refused(r),
    }
}

fn told(told: Result<bool, Refusal>) -> Reply {
    match told {
        Ok(t) => yes_or_no(t),
        Err(r) => Reply::Refused(r),
    }
}

fn least(least: Result<Option<(u8, u8)>, Refusal>) -> Reply {
    match least {
        Ok(Some((square, _))) => Reply::Natural(square as u64),
        Ok(None) => Reply::Nobody,
        Err(r) => Reply::Refused(r),
    }
}
