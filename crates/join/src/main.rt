// Reads the ledgers that its arguments name, each as a whole one, and writes them as one: reads, feeds, writes, and nothing else.
//
// What a read, a write and an error number mean stands in crate stream, and what a ledger is in crate ledger_join. Where one fails, or a
// part is no ledger, the rows so far stay, no last row follows them, and the reason goes to standard error; that all is written is said on
// descriptor 3, last of all.
#![tactic(auto)]

use ledger_feed::Unwritten;
use ledger_join::{Joining, Unjoined};
use std::io::Read;
use stream_io::{Taken, Turn};

// There is room for a row at each byte of a chunk, so no rows are counted before they are taken.
fn main(rt: HostRuntime) {
    let mut chunk = io::buffer();
    let mut out = [0u8; 262144];
    if write_join(&rt, &mut chunk, &mut out) {
        stream_io::say_whole(&rt, rt.stdout(), rt.stderr(), b"join: standard output");
    }
}

// All parts, and then the last row: whether all of it is written.
fn write_join(rt: &HostRuntime, chunk: &mut [u8], out: &mut [u8]) -> bool {
    let mut row = [0u8; ledger_join::ROW];
    let read = read_parts(rt, stream_io::argument_count(rt), &mut row, chunk, out);
    let Turn::More(state) = read else {
        return false;
    };
    finish(rt, state, out)
}

fn read_parts(
    rt: &HostRuntime,
    count: usize,
    row: &mut [u8],
    chunk: &mut [u8],
    out: &mut [u8],
) -> Turn<Joining> {
    let mut state = ledger_join::start();
    for i in 1..count {
        match read_part(rt, i, state, row, chunk, out) {
            Turn::More(next) => {
                state = next;
            }
            Turn::End => {
                return Turn::Stopped;
            }
            Turn::Stopped => {
                return Turn::Stopped;
            }
        }
    }
    Turn::More(state)
}

fn read_part(
    rt: &HostRuntime,
    i: usize,
    state: Joining,
    row: &mut [u8],
    chunk: &mut [u8],
    out: &mut [u8],
) -> Turn<Joining> {
    let mut name = io::buffer();
    match stream_io::open_argument(rt, rt.stderr(), i, &mut name) {
        Some((mut file, n)) => {
            let what = &name[..n];
            let read = read_to_end(rt, &mut file, what, state, row, chunk, out);
            stream_io::close(file);
            end_part(rt, read, what)
        }
        None => Turn::Stopped,
    }
}

// A part's end: it was a whole ledger, and the next one may come.
fn end_part(rt: &HostRuntime, read: Turn<Joining>, name: &[u8]) -> Turn<Joining> {
    let Turn::More(state) = read else {
        return Turn::Stopped;
    };
    match ledger_join::next_part(state) {
        Ok(next) => Turn::More(next),
        Err(Unjoined::NoLedger(part, row)) => {
            no_ledger(rt, name, part, row);
            Turn::Stopped
        }
        // There is no row here that could lack room.
        Err(Unjoined::Full | Unjoined::Many) => {
            stop(rt, b": more parts than 64 bits count\n");
            Turn::Stopped
        }
    }
}

// All reads of one part, and the rows that end in them.
fn read_to_end<R: Read>(
    rt: &HostRuntime,
    from: &mut R,
    what: &[u8],
    state: Joining,
    row: &mut [u8],
    chunk: &mut [u8],
    out: &mut [u8],
) -> Turn<Joining> {
    let mut state = state;
    let mut turns: u64 = 0;
    while stream::may_go_on(turns) {
        turns += 1;
        match read_some(rt, from, what, state, row, chunk, out) {
            Turn::More(next) => {
                state = next;
                if state.stopped {
                    return Turn::More(state);
                }
            }
            Turn::End => {
                return Turn::More(state);
            }
            Turn::Stopped => {
                return Turn::Stopped;
            }
        }
    }
    stop(rt, b": too many reads\n");
    Turn::Stopped
}

// One read, and the rows that end in it.
fn read_some<R: Read>(
    rt: &HostRuntime,
    from: &mut R,
    what: &[u8],
    state: Joining,
    row: &mut [u8],
    chunk: &mut [u8],
    out: &mut [u8],
) -> Turn<Joining> {
    match stream_io::read(rt.stderr(), from, chunk, what) {
        Taken::Bytes(n) => feed(rt, state, row, &chunk[..n], out),
        Taken::End => Turn::End,
        Taken::Failed => Turn::Stopped,
    }
}

fn feed(
    rt: &HostRuntime,
    state: Joining,
    row: &mut [u8],
    chunk: &[u8],
    out: &mut [u8],
) -> Turn<Joining> {
    match ledger_join::feed(state, row, chunk, out) {
        Ok((next, wrote)) => {
            if write(rt, &out[..wrote]) {
                return Turn::More(next);
            }
        }
        Err(Unwritten::Full) => {
            stop(rt, b": too little room for rows\n");
        }
        Err(Unwritten::Many) => {
            stop(rt, b": more lines than 64 bits count\n");
        }
        Err(Unwritten::Refused(_)) => {
            stop(rt, b": no row buffer\n");
        }
    }
    Turn::Stopped
}

fn finish(rt: &HostRuntime, state: Joining, out: &mut [u8]) -> bool {
    match ledger_join::finish(state, out) {
        Ok(wrote) => write(rt, &out[..wrote]),
        Err(Unjoined::NoLedger(_, _)) => stop(rt, b": a part has not ended\n"),
        Err(Unjoined::Full) => stop(rt, b": too little room for the last row\n"),
        Err(Unjoined::Many) => stop(rt, b": more lines than 64 bits count\n"),
    }
}

fn write(rt: &HostRuntime, rows: &[u8]) -> bool {
    stream_io::write_all(
        rt.stderr(),
        &mut rt.stdout(),
        rows,
        b"join: standard output",
    )
}

// Which row of which part is none.
fn no_ledger(rt: &HostRuntime, name: &[u8], part: u64, row: u64) {
    stream_io::say(rt.stderr(), b"join: ", name);
    say_number(rt, b": part ", part);
    say_number(rt, b", row ", row);
    stream_io::say(rt.stderr(), b": not a ledger's", b"\n");
}

fn say_number(rt: &HostRuntime, word: &[u8], n: u64) {
    let mut digits = [0u8; 20];
    let k = io::decimal(n, &mut digits);
    stream_io::say(rt.stderr(), word, &digits[..k]);
}

// Nothing more is written.
fn stop(rt: &HostRuntime, reason: &[u8]) -> bool {
    stream_io::say(rt.stderr(), b"join", reason);
    false
}
