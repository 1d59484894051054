// Answers the oracle's questions of exchanges and of the score on standard input, one a line: the file stdout holds what the Rust answered (oracle/README.md).
#![tactic(auto)]

use crate::reply::Reply;
use chess::piece::Piece;
use chess::square::Square;
use exchange_order::ORDER;
use exchange_start::Mode;
use position::State;
use refusal::Refusal;
use replay_question::NUMBERS;
use std::io;
use text_in::inner::{is, past, text_before};

mod reply;
mod scores;
mod states;

// More than the recorded questions take. One that did not fit would have no answer, and the run would fail.
const ROOM: usize = 0x38000;

fn main(rt: HostRuntime) -> io::Result<()> {
    let mut questions = [0u8; ROOM];
    let n = stream_io::read_full(
        rt.stderr(),
        &mut rt.stdin(),
        &mut questions,
        b"replay_scores: standard input",
    );
    answer_all(&rt, &questions[..n])
}

#[tactic(auto, using(text_in::proofs::Parts::past_found, text_in::proofs::Parts::left_shorter))]
fn answer_all(rt: &impl Print, questions: &[u8]) -> io::Result<()> {
    let mut rest = questions;
    while rest.len() > 0 {
        reply::print(rt, answer(text_before(rest, b'\n')))?;
        let next = past(rest, b'\n');
        rest = &rest[next..];
    }
    Ok(())
}

// What there is to say to a question. Its position is the empty board where it has none.
fn answer(question: &[u8]) -> Reply {
    let word = replay_question::word(question);
    let numbers = replay_question::numbers(question);
    let loaded = line::inner::read(replay_question::position(question));
    let bitboards = loaded.bitboards;
    let board = loaded.board;
    let read = loaded.answer;
    let state = state(read);
    if is(word, b"bent") {
        return bent(numbers, bitboards, board, state);
    }
    if is(word, b"state") {
        return in_state(numbers, bitboards, board);
    }
    if is(word, b"see") {
        return seen(numbers, bitboards, board, state);
    }
    scored(word, numbers, bitboards, board, state)
}

// The exchange that a question names. Arrays go by value here and below: one that is lent in several arms has no length that is known.
fn seen(
    n: [u64; NUMBERS],
    bitboards: [u64; Piece::BOARDS],
    board: [u8; Square::COUNT],
    state: State,
) -> Reply {
    let order = ORDER;
    worth(exchange::see(
        Mode::First,
        &bitboards,
        &board,
        state,
        &order,
        byte(n[0]),
        byte(n[1]),
    ))
}

fn scored(
    word: &[u8],
    n: [u64; NUMBERS],
    bitboards: [u64; Piece::BOARDS],
    board: [u8; Square::COUNT],
    state: State,
) -> Reply {
    scores::answer(word, n, &bitboards, &board, state)
}

fn state(read: Result<(State, u8), Refusal>) -> State {
    match read {
        Ok((state, _)) => state,
        Err(_) => position::of_side(0),
    }
}

// The number as a byte; 255 where it is larger.
pub(crate) fn byte(n: u64) -> u8 {
    if n > 255 {
        return 255;
    }
    n as u8
}

fn worth(worth: Result<i16, Refusal>) -> Reply {
    match worth {
        Ok(value) => Reply::Score(value),
        Err(r) => Reply::Refused(r),
    }
}

// The score in the state that the question names.
fn in_state(
    n: [u64; NUMBERS],
    bitboards: [u64; Piece::BOARDS],
    board: [u8; Square::COUNT],
) -> Reply {
    scores::scored(score::eval(&bitboards, &board, states::named(n)))
}

// The score after one bitboard has some bits turned over, and one byte is set.
fn bent(
    n: [u64; NUMBERS],
    bitboards: [u64; Piece::BOARDS],
    board: [u8; Square::COUNT],
    state: State,
) -> Reply {
    let turned = turned(bitboards, byte(n[0]) as usize, n[1]);
    let set = set(board, byte(n[2]) as usize, byte(n[3]));
    scores::scored(score::eval(&turned, &set, state))
}

fn turned(bitboards: [u64; Piece::BOARDS], i: usize, bits: u64) -> [u64; Piece::BOARDS] {
    let mut bent = bitboards;
    if i < Piece::BOARDS {
        bent[i] = bent[i] ^ bits;
    }
    bent
}

fn set(board: [u8; Square::COUNT], k: usize, byte: u8) -> [u8; Square::COUNT] {
    let mut bent = board;
    if k < Square::COUNT {
        bent[k] = byte;
    }
    bent
}
