// Answers the oracle's questions of traces and doubles on standard input, one a line: the file stdout holds what the Rust answered,
// a double as its bits (oracle/README.md). A word that begins with `list_` asks for the same by way of the trace's list.
#![tactic(auto)]

use places::entry::Entry;
use places::weight::SquareWeight;
use position::State;
use refusal::Refusal;
use replay_question::NUMBERS;
use std::io;
use text_in::inner::{is, past, text_after, text_before};
use trace_counts::{Trace, Weights};
use trace_list::BYTES;

mod prints;
mod seeds;

// More than the recorded questions take. One that did not fit would have no answer, and the run would fail.
const ROOM: usize = 0x30000;

fn main(rt: HostRuntime) -> io::Result<()> {
    let mut questions = [0u8; ROOM];
    let n = stream_io::read_full(
        rt.stderr(),
        &mut rt.stdin(),
        &mut questions,
        b"replay_traces: standard input",
    );
    answer_all(&rt, &questions[..n])
}

#[tactic(auto, using(text_in::proofs::Parts::past_found, text_in::proofs::Parts::left_shorter))]
fn answer_all(rt: &impl Print, questions: &[u8]) -> io::Result<()> {
    let mut rest = questions;
    while rest.len() > 0 {
        answer(rt, text_before(rest, b'\n'))?;
        let next = past(rest, b'\n');
        rest = &rest[next..];
    }
    Ok(())
}

// A word that begins with `list_` asks the same by way of the list.
fn answer(rt: &impl Print, question: &[u8]) -> io::Result<()> {
    let word = replay_question::word(question);
    of_word(
        rt,
        bare(word),
        replay_question::numbers(question),
        replay_question::position(question),
        is_listed(word),
    )
}

fn of_word(
    rt: &impl Print,
    asked: &[u8],
    n: [u64; NUMBERS],
    text: &[u8],
    as_list: bool,
) -> io::Result<()> {
    if is(asked, b"wild") {
        return prints::doubled(rt, of_seed(n[2], seeds::PLACES, 0, n[0], n[1], as_list));
    }
    if is(asked, b"odd") {
        return prints::doubled(
            rt,
            of_seed(n[4], n[0] as usize, seeds::value(n[1]), n[2], n[3], as_list),
        );
    }
    of_text(rt, asked, n[0], n[1], text, as_list)
}

fn is_listed(word: &[u8]) -> bool {
    is(text_before(word, b'_'), b"list")
}

fn bare(word: &[u8]) -> &[u8] {
    if is_listed(word) {
        return text_after(word, b'_');
    }
    word
}

fn of_text(
    rt: &impl Print,
    asked: &[u8],
    kind: u64,
    seed: u64,
    text: &[u8],
    as_list: bool,
) -> io::Result<()> {
    if as_list {
        return by_list(rt, asked, kind, seed, text);
    }
    of_position(rt, asked, kind, seed, text)
}

// The double of a seed's trace, one of whose numbers is set to a value, if it has the place; as it is, or by way of its list.
fn of_seed(
    seed: u64,
    place: usize,
    value: i32,
    kind: u64,
    weights_seed: u64,
    as_list: bool,
) -> Result<f64, Refusal> {
    let mut numbers = [0i32; seeds::NUMBERS];
    let mut entries = [0i32; Entry::COUNT];
    let next = seeds::numbers(seed, &mut numbers);
    seeds::entries(next, &mut entries);
    seeds::set(&mut numbers, place, value);
    seeds::set(&mut entries, seeds::entry(place), value);
    of_trace(
        seeds::trace(&numbers),
        &entries,
        kind,
        weights_seed,
        as_list,
    )
}

fn of_trace(
    t: Trace,
    entries: &[i32],
    kind: u64,
    seed: u64,
    as_list: bool,
) -> Result<f64, Refusal> {
    if as_list {
        return turned(t, entries, kind, seed);
    }
    doubled(t, entries, kind, seed)
}

// The trace of a position, or its double.
fn of_position(rt: &impl Print, word: &[u8], kind: u64, seed: u64, text: &[u8]) -> io::Result<()> {
    let loaded = line::inner::read(text);
    let bitboards = loaded.bitboards;
    let board = loaded.board;
    let read = loaded.answer;
    let mut entries = [0i32; Entry::COUNT];
    let traced = trace::compute_trace(&bitboards, &board, state(read), &mut entries);
    print(rt, word, traced.trace, &entries, kind, seed)
}

fn print(
    rt: &impl Print,
    word: &[u8],
    t: Trace,
    entries: &[i32],
    kind: u64,
    seed: u64,
) -> io::Result<()> {
    if is(word, b"trace") {
        return prints::trace(rt, t, entries);
    }
    prints::doubled(rt, doubled(t, entries, kind, seed))
}

// The same by way of the position's list.
fn by_list(rt: &impl Print, word: &[u8], kind: u64, seed: u64, text: &[u8]) -> io::Result<()> {
    let loaded = line::inner::read(text);
    let bitboards = loaded.bitboards;
    let board = loaded.board;
    let read = loaded.answer;
    let mut bytes = [0u8; BYTES];
    let computed = trace_list_computed::compute_list(&bitboards, &board, state(read), &mut bytes);
    print_list(rt, word, computed.trace, computed.used, &bytes, kind, seed)
}

fn print_list(
    rt: &impl Print,
    word: &[u8],
    t: Trace,
    used: u8,
    bytes: &[u8; BYTES],
    kind: u64,
    seed: u64,
) -> io::Result<()> {
    if is(word, b"trace") {
        return print_flat(rt, t, used, bytes);
    }
    prints::doubled(rt, list_doubled(t, used, bytes, kind, seed))
}

fn print_flat(rt: &impl Print, t: Trace, used: u8, bytes: &[u8; BYTES]) -> io::Result<()> {
    let mut entries = [0i32; Entry::COUNT];
    let _ = trace_list_turn::flat_of(t, used, bytes, &mut entries);
    prints::trace(rt, t, &entries)
}

// White to move where the line is refused, which no recorded position's is.
fn state(read: Result<(State, u8), Refusal>) -> State {
    match read {
        Ok((state, _)) => state,
        Err(_) => position::of_side(0),
    }
}

// The weights of a kind and a seed: kind 0 is the shipped weights.
fn weights(kind: u64, seed: u64) -> Weights {
    if kind == 0 {
        return trace_shipped::weights();
    }
    seeds::weights(kind, seed)
}

fn square_weights(kind: u64, seed: u64, squares: &mut [f64]) {
    if kind == 0 {
        let _ = trace_shipped::square_weights(squares);
        return;
    }
    seeds::squares(kind, seeds::after_named(seed), squares);
}

// The double of a trace with these weights.
fn doubled(t: Trace, entries: &[i32], kind: u64, seed: u64) -> Result<f64, Refusal> {
    let mut squares = [0.0f64; SquareWeight::COUNT];
    square_weights(kind, seed, &mut squares);
    trace_double::eval(t, entries, weights(kind, seed), &squares)
}

// The same by way of the list that the trace is turned into.
fn turned(t: Trace, entries: &[i32], kind: u64, seed: u64) -> Result<f64, Refusal> {
    let mut bytes = [0u8; BYTES];
    let used = trace_list_turn::list_of(t, entries, &mut bytes)?;
    list_doubled(t, used, &bytes, kind, seed)
}

fn list_doubled(
    t: Trace,
    used: u8,
    bytes: &[u8; BYTES],
    kind: u64,
    seed: u64,
) -> Result<f64, Refusal> {
    let mut squares = [0.0f64; SquareWeight::COUNT];
    square_weights(kind, seed, &mut squares);
    trace_list_double::eval_list(t, used, bytes, weights(kind, seed), &squares)
}
