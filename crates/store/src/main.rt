// Reads a store of records on standard input and writes the ledger's row for each and the totals: reads, feeds, writes, and nothing else.
//
// What a read, a write and an error number mean stands in crate stream, what a piece of the store does to the rows in store_rows. Where a
// read or a write fails, or a loop comes to its bound, the rows so far stay, no last row follows them, and the reason goes to standard
// error; that all is written is said on descriptor 3, last of all.
#![tactic(auto)]

use ledger_feed::Unwritten;
use store_record::inner::RECORD;
use store_rows::StoreSoFar;
use stream_io::{Taken, Turn};

fn main(rt: HostRuntime) {
    let mut chunk = io::buffer();
    let mut out = [0u8; 131072];
    if write_rows(&rt, &mut chunk, &mut out) {
        stream_io::say_whole(&rt, rt.stdout(), rt.stderr(), b"store: standard output");
    }
}

// All reads, and then the last rows: whether all of them are written.
fn write_rows(rt: &HostRuntime, chunk: &mut [u8], out: &mut [u8]) -> bool {
    let mut piece = [0u8; RECORD];
    let read = read_to_end(rt, &mut piece, chunk, out);
    let Turn::More(state) = read else {
        return false;
    };
    finish(rt, state, out)
}

// All reads, and the rows of the pieces that end in them.
fn read_to_end(
    rt: &HostRuntime,
    piece: &mut [u8],
    chunk: &mut [u8],
    out: &mut [u8],
) -> Turn<StoreSoFar> {
    let mut state = store_rows::start();
    let mut turns: u64 = 0;
    while stream::may_go_on(turns) {
        turns += 1;
        match read_some(rt, state, piece, chunk, out) {
            Turn::More(next) => {
                state = next;
            }
            Turn::End => {
                return Turn::More(state);
            }
            Turn::Stopped => {
                return Turn::Stopped;
            }
        }
    }
    stop(rt, b": too many reads\n");
    Turn::Stopped
}

// One read, and the rows of the pieces that end in it.
fn read_some(
    rt: &HostRuntime,
    state: StoreSoFar,
    piece: &mut [u8],
    chunk: &mut [u8],
    out: &mut [u8],
) -> Turn<StoreSoFar> {
    match stream_io::read(
        rt.stderr(),
        &mut rt.stdin(),
        chunk,
        b"store: standard input",
    ) {
        Taken::Bytes(n) => feed(rt, state, piece, &chunk[..n], out),
        Taken::End => Turn::End,
        Taken::Failed => Turn::Stopped,
    }
}

fn feed(
    rt: &HostRuntime,
    state: StoreSoFar,
    piece: &mut [u8],
    chunk: &[u8],
    out: &mut [u8],
) -> Turn<StoreSoFar> {
    match store_rows::feed(state, piece, chunk, out) {
        Ok((next, wrote)) => {
            if write(rt, &out[..wrote]) {
                return Turn::More(next);
            }
        }
        Err(Unwritten::Full) => {
            stop(rt, b": too little room for rows\n");
        }
        Err(Unwritten::Many) => {
            stop(rt, b": more records than 64 bits count\n");
        }
        Err(Unwritten::Refused(_)) => {
            stop(rt, b": no piece buffer\n");
        }
    }
    Turn::Stopped
}

fn finish(rt: &HostRuntime, state: StoreSoFar, out: &mut [u8]) -> bool {
    match store_finish::finish(state, out) {
        Ok(wrote) => write(rt, &out[..wrote]),
        Err(Unwritten::Full) => stop(rt, b": too little room for the last rows\n"),
        Err(Unwritten::Many) => stop(rt, b": more records than 64 bits count\n"),
        Err(Unwritten::Refused(_)) => stop(rt, b": no piece buffer\n"),
    }
}

fn write(rt: &HostRuntime, rows: &[u8]) -> bool {
    stream_io::write_all(
        rt.stderr(),
        &mut rt.stdout(),
        rows,
        b"store: standard output",
    )
}

// Nothing more is written.
fn stop(rt: &HostRuntime, reason: &[u8]) -> bool {
    stream_io::say(rt.stderr(), b"store", reason);
    false
}
