// Lines added to the sums of a gradient, each of a position's trace.
use crate::lists;
use crate::reply::Reply;
use places::entry::Entry;
use position::State;
use refusal::Refusal;
use replay_question::NUMBERS;
use text_in::inner::is;
use trace_counts::Trace;

pub(crate) fn answer(word: &[u8], n: [u64; NUMBERS], text: &[u8], sums: &mut [f64]) -> Reply {
    let loaded = line::inner::read(text);
    let bitboards = loaded.bitboards;
    let board = loaded.board;
    let read = loaded.answer;
    let mut entries = [0i32; Entry::COUNT];
    let traced = trace::compute_trace(&bitboards, &board, state(read), &mut entries);
    add(is_odd(word), n, traced.trace, &mut entries, sums)
}

// Of an odd line the trace's first entry and its piece count are changed.
fn add(odd: bool, n: [u64; NUMBERS], trace: Trace, entries: &mut [i32], sums: &mut [f64]) -> Reply {
    put_first(odd, entries, small(n[1]));
    added(fit_gradient::add(
        counted(odd, trace, small(n[2])),
        entries,
        lists::of_bits(n[0]),
        sums,
    ))
}

fn is_odd(word: &[u8]) -> bool {
    is(word, b"odd_line")
}

// White to move where the line is refused, which no recorded position's is.
fn state(read: Result<(State, u8), Refusal>) -> State {
    match read {
        Ok((state, _)) => state,
        Err(_) => position::of_side(0),
    }
}

fn added(answer: Result<(), Refusal>) -> Reply {
    match answer {
        Ok(()) => Reply::Done,
        Err(r) => Reply::Refused(r),
    }
}

fn counted(odd: bool, trace: Trace, count: i32) -> Trace {
    let mut t = trace;
    if odd {
        t.piece_count = count;
    }
    t
}

fn put_first(odd: bool, entries: &mut [i32], entry: i32) {
    if !odd {
        return;
    }
    if entries.len() > 0 {
        entries[0] = entry;
    }
}

fn small(n: u64) -> i32 {
    if n < 1000 {
        return n as i32;
    }
    -1
}
