// Answers the oracle's questions with an order of the kinds on standard input, one a line: the file stdout holds what the reference answered
// (oracle/README.md).
#![tactic(auto)]

use crate::reply::Reply;
use chess::kind::Kind;
use exchange_start::Mode;
use exchange_told::Told;
use position::State;
use refusal::Refusal;
use std::io;
use text_in::inner::{is, past, text_before};

mod reply;

// More than the recorded questions take. One that did not fit would have no answer, and the run would fail.
const ROOM: usize = 0x40000;

fn main(rt: HostRuntime) -> io::Result<()> {
    let mut questions = [0u8; ROOM];
    let n = stream_io::read_full(
        rt.stderr(),
        &mut rt.stdin(),
        &mut questions,
        b"replay_orders: standard input",
    );
    answer_all(&rt, &questions[..n])
}

#[tactic(auto, using(text_in::proofs::Parts::past_found, text_in::proofs::Parts::left_shorter))]
fn answer_all(rt: &impl Print, questions: &[u8]) -> io::Result<()> {
    let mut rest = questions;
    while rest.len() > 0 {
        reply::print(rt, answer(rt, text_before(rest, b'\n'))?)?;
        let next = past(rest, b'\n');
        rest = &rest[next..];
    }
    Ok(())
}

fn answer(rt: &impl Print, question: &[u8]) -> io::Result<Reply> {
    let word = replay_question::word(question);
    let n = replay_question::numbers(question);
    let loaded = line::inner::read(replay_question::position(question));
    let bitboards = loaded.bitboards;
    let board = loaded.board;
    let read = loaded.answer;
    let state = state(read);
    let order = order(n[0]);
    if is(word, b"lvp_by") {
        return Ok(least(exchange_least::lvp(
            &bitboards,
            &board,
            state,
            &order,
            byte(n[1]),
            n[2],
            n[3],
        )));
    }
    exchanged(
        rt,
        word,
        &bitboards,
        &board,
        state,
        &order,
        byte(n[1]),
        byte(n[2]),
    )
}

// What there is to say of the exchange from a square to another, in the mode that the word names.
fn exchanged(
    rt: &impl Print,
    word: &[u8],
    bitboards: &[u64],
    board: &[u8],
    state: State,
    order: &[u8; Kind::COUNT],
    from: u8,
    to: u8,
) -> io::Result<Reply> {
    if is(word, b"see_by") {
        return Ok(worth(exchange::see(Mode::First, bitboards, board, state, order, from, to)));
    }
    if is(word, b"see_second") {
        return Ok(worth(exchange::see(Mode::Second, bitboards, board, state, order, from, to)));
    }
    if is(word, b"captures") {
        return told(
            rt,
            exchange_told::captures(Mode::First, bitboards, board, state, order, from, to),
        );
    }
    if is(word, b"captures_second") {
        return told(
            rt,
            exchange_told::captures(Mode::Second, bitboards, board, state, order, from, to),
        );
    }
    Ok(Reply::Nothing)
}

fn state(read: Result<(State, u8), Refusal>) -> State {
    match read {
        Ok((state, _)) => state,
        Err(_) => position::of_side(0),
    }
}

// The number as a byte; 255 where it is larger.
fn byte(n: u64) -> u8 {
    if n > 255 {
        return 255;
    }
    n as u8
}

// The six digits of an order, one a kind.
fn order(n: u64) -> [u8; Kind::COUNT] {
    [
        digit(n / 100000),
        digit(n / 10000),
        digit(n / 1000),
        digit(n / 100),
        digit(n / 10),
        digit(n),
    ]
}

fn digit(n: u64) -> u8 {
    byte(n % 10)
}

fn worth(worth: Result<i16, Refusal>) -> Reply {
    match worth {
        Ok(value) => Reply::Score(value),
        Err(r) => Reply::Refused(r),
    }
}

// The captures are written here: an answer that holds lists is not to be had.
fn told(rt: &impl Print, told: Told) -> io::Result<Reply> {
    let checked = told.checked;
    if let Err(r) = checked {
        return Ok(Reply::Refused(r));
    }
    let listed = told.listed;
    let squares = listed.from;
    let kinds = listed.kind;
    let taken = listed.taken;
    reply::captures(rt, &squares, &kinds, &taken, listed.count)?;
    let stop = told.stop;
    reply::stop(rt, stop)?;
    Ok(Reply::Nothing)
}

fn least(least: Result<Option<(u8, u8)>, Refusal>) -> Reply {
    match least {
        Ok(Some((square, kind))) => Reply::Attacker(square, kind),
        Ok(None) => Reply::Nobody,
        Err(r) => Reply::Refused(r),
    }
}
