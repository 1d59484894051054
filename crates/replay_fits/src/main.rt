// Answers the oracle's questions of fits on standard input, one a line: roots, and a fit whose memory goes on from question to question. The
// file stdout holds what the Rust and the reference answered, a double as its bits (oracle/README.md).
#![tactic(auto)]

use crate::reply::Reply;
use places::weight::Weight;
use refusal::Refusal;
use replay_question::NUMBERS;
use std::io;
use text_in::inner::{is, past, text_before};

mod gradients;
mod lists;
mod reply;

// More than the recorded questions take. One that did not fit would have no answer, and the run would fail.
const ROOM: usize = 0x18000;

fn main(rt: HostRuntime) -> io::Result<()> {
    let mut questions = [0u8; ROOM];
    let n = stream_io::read_full(
        rt.stderr(),
        &mut rt.stdin(),
        &mut questions,
        b"replay_fits: standard input",
    );
    let mut sums = [0.0f64; Weight::COUNT];
    let mut first = [0.0f64; Weight::COUNT];
    let mut second = [0.0f64; Weight::COUNT];
    let mut weights = [0.0f64; Weight::COUNT];
    answer_all(
        &rt,
        &questions[..n],
        &mut sums,
        &mut first,
        &mut second,
        &mut weights,
    )
}

// The fit's memory is lent: the sums of the gradient, both moments and the weights.
#[tactic(auto, using(text_in::proofs::Parts::past_found, text_in::proofs::Parts::left_shorter))]
fn answer_all(
    rt: &impl Print,
    questions: &[u8],
    sums: &mut [f64],
    first: &mut [f64],
    second: &mut [f64],
    weights: &mut [f64],
) -> io::Result<()> {
    let mut rest = questions;
    while rest.len() > 0 {
        reply::print(
            rt,
            answer(text_before(rest, b'\n'), sums, first, second, weights),
        )?;
        let next = past(rest, b'\n');
        rest = &rest[next..];
    }
    Ok(())
}

// What a question does to the memory.
#[derive(Clone, Copy)]
enum Change {
    Afresh,
    Put,
    Step,
    Nothing,
}

fn changing(word: &[u8]) -> Change {
    if is(word, b"fit") {
        return Change::Afresh;
    }
    if is(word, b"put") {
        return Change::Put;
    }
    if is(word, b"step") {
        return Change::Step;
    }
    Change::Nothing
}

fn answer(
    question: &[u8],
    sums: &mut [f64],
    first: &mut [f64],
    second: &mut [f64],
    weights: &mut [f64],
) -> Reply {
    let n = replay_question::numbers(question);
    match changing(replay_question::word(question)) {
        Change::Afresh => afresh(sums, first, second, weights),
        Change::Put => put(n, sums, first, second, weights),
        Change::Step => step(n, sums, first, second, weights),
        Change::Nothing => told(question, n, sums, first, second, weights),
    }
}

fn step(
    n: [u64; NUMBERS],
    sums: &mut [f64],
    first: &mut [f64],
    second: &mut [f64],
    weights: &mut [f64],
) -> Reply {
    stepped(fit_adam::step(sums, first, second, weights, n[1], lists::of_bits(n[0])))
}

// What the memory holds; no other question changes more of it than the sums.
fn told(
    question: &[u8],
    n: [u64; NUMBERS],
    sums: &mut [f64],
    first: &[f64],
    second: &[f64],
    weights: &[f64],
) -> Reply {
    let word = replay_question::word(question);
    if is(word, b"of") {
        return Reply::Number(of(n[0], sums, first, second, weights));
    }
    if is(word, b"at") {
        return Reply::Double(at(n, sums, first, second, weights));
    }
    summed(question, n, sums)
}

fn summed(question: &[u8], n: [u64; NUMBERS], sums: &mut [f64]) -> Reply {
    let word = replay_question::word(question);
    if is(word, b"root") {
        return Reply::Double(fit_root::sqrt(lists::of_bits(n[0])));
    }
    if is(word, b"weigh") {
        return weighed(n);
    }
    gradients::answer(word, n, replay_question::position(question), sums)
}

// What a line lets expect, and its coefficient, by the table: its double, its half points, K and how many lines there are.
fn weighed(n: [u64; NUMBERS]) -> Reply {
    let half = (n[1] % 256) as u8;
    match fit_coefficient::weigh(lists::of_bits(n[0]), half, lists::of_bits(n[2]), n[3]) {
        Ok(share) => Reply::Doubles(share.expected, share.coefficient),
        Err(refusal) => Reply::Refused(refusal),
    }
}

fn stepped(answer: Result<(), Refusal>) -> Reply {
    match answer {
        Ok(()) => Reply::Done,
        Err(r) => Reply::Refused(r),
    }
}

// Sums and moments of zeros, and the shipped weights.
fn afresh(sums: &mut [f64], first: &mut [f64], second: &mut [f64], weights: &mut [f64]) -> Reply {
    sums.fill(0.0);
    first.fill(0.0);
    second.fill(0.0);
    lists::ship(weights);
    Reply::Done
}

// A double of a list put in, or all of them where the list has no such place.
fn put(
    n: [u64; NUMBERS],
    sums: &mut [f64],
    first: &mut [f64],
    second: &mut [f64],
    weights: &mut [f64],
) -> Reply {
    let list = n[0];
    match list {
        0 => put_in(n, sums),
        1 => put_in(n, first),
        2 => put_in(n, second),
        _ => put_in(n, weights),
    }
}

fn put_in(n: [u64; NUMBERS], list: &mut [f64]) -> Reply {
    lists::put(list, n[1], lists::of_bits(n[2]));
    Reply::Done
}

// All of a list, in one number.
fn of(list: u64, sums: &[f64], first: &[f64], second: &[f64], weights: &[f64]) -> u64 {
    match list {
        0 => lists::all(sums),
        1 => lists::all(first),
        2 => lists::all(second),
        _ => lists::all(weights),
    }
}

fn at(n: [u64; NUMBERS], sums: &[f64], first: &[f64], second: &[f64], weights: &[f64]) -> f64 {
    let list = n[0];
    match list {
        0 => lists::at(sums, n[1]),
        1 => lists::at(first, n[1]),
        2 => lists::at(second, n[1]),
        _ => lists::at(weights, n[1]),
    }
}
