// Answers the oracle's questions of bitboards and attacks on standard input, one a line: the file stdout holds what the Rust answered (oracle/README.md).
#![tactic(auto)]

use crate::reply::Reply;
use position::State;
use refusal::Refusal;
use std::io;
use text_in::inner::{past, text_before};

mod attacks;
mod bitboards;
mod reply;

// More than the recorded questions take. One that did not fit would have no answer, and the run would fail.
const ROOM: usize = 0x20000;

fn main(rt: HostRuntime) -> io::Result<()> {
    let mut questions = [0u8; ROOM];
    let n = stream_io::read_full(
        rt.stderr(),
        &mut rt.stdin(),
        &mut questions,
        b"replay_bits: standard input",
    );
    answer_all(&rt, &questions[..n])
}

#[tactic(auto, using(text_in::proofs::Parts::past_found, text_in::proofs::Parts::left_shorter))]
fn answer_all(rt: &impl Print, questions: &[u8]) -> io::Result<()> {
    let mut rest = questions;
    while rest.len() > 0 {
        reply::print(rt, answer(text_before(rest, b'\n')))?;
        let next = past(rest, b'\n');
        rest = &rest[next..];
    }
    Ok(())
}

// What there is to say to a question. Its position is the empty board where it has none.
fn answer(question: &[u8]) -> Reply {
    let word = replay_question::word(question);
    let numbers = replay_question::numbers(question);
    let a = bitboards::answer(word, numbers);
    if a.is_something() {
        return a;
    }
    let loaded = line::inner::read(replay_question::position(question));
    let bitboards = loaded.bitboards;
    let board = loaded.board;
    let read = loaded.answer;
    attacks::answer(word, numbers, &bitboards, &board, state(read))
}

fn state(read: Result<(State, u8), Refusal>) -> State {
    match read {
        Ok((state, _)) => state,
        Err(_) => position::of_side(0),
    }
}
