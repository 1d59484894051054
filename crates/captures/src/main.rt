// Reads questions about exchanges on standard input and writes the captures of each, where it stops and what it is worth: reads, feeds, writes, and
// nothing else. With `--second` in the second mode.
//
// What a call asks for stands in captures_asked, what a read, a write and an error number mean in crate stream, what a question's rows are in
// captures_feed. Where a read or a write fails, or a loop comes to its bound, the rows so far stay, no last row follows them, and the reason goes to
// standard error; that all is written is said on descriptor 3, last of all.
#![tactic(auto)]

use exchange_start::Mode;
use ledger_feed::{SoFar, Unwritten};
use stream_io::{Taken, Turn};

// So many bytes are read at a time: each may end a line, and a line's rows may take 2,048 bytes.
const CHUNK: usize = 256;

const OUT: usize = 524288;

// The room for an option. What does not fit is none that the program knows.
const WORD: usize = 16;

fn main(rt: HostRuntime) {
    let mut chunk = [0u8; CHUNK];
    let mut out = room();
    if write_asked(&rt, &mut chunk, &mut out) {
        stream_io::say_whole(&rt, rt.stdout(), rt.stderr(), b"captures: standard output");
    }
}

// The room for the rows of one read.
fn room() -> [u8; OUT] {
    [0u8; OUT]
}

// What the arguments ask for: whether all of it is written.
fn write_asked(rt: &HostRuntime, chunk: &mut [u8], out: &mut [u8]) -> bool {
    let mut option = [0u8; WORD];
    let n = stream_io::argument(rt, 1, &mut option);
    match captures_asked::read_call(stream_io::argument_count(rt), &option[..n]) {
        Some(mode) => write_answers(rt, mode, chunk, out),
        None => stop(rt, b": there is no such option\n"),
    }
}

// All reads, and then the last rows: whether all of them are written.
fn write_answers(rt: &HostRuntime, mode: Mode, chunk: &mut [u8], out: &mut [u8]) -> bool {
    let mut line = [0u8; line_cut::LINE];
    let read = read_to_end(rt, mode, &mut line, chunk, out);
    let Turn::More(state) = read else {
        return false;
    };
    finish(rt, mode, state, &line, out)
}

// All reads, and the rows of the questions that end in them.
fn read_to_end(
    rt: &HostRuntime,
    mode: Mode,
    line: &mut [u8],
    chunk: &mut [u8],
    out: &mut [u8],
) -> Turn<SoFar> {
    let mut state = ledger_feed::start();
    let mut turns: u64 = 0;
    while stream::may_go_on(turns) {
        turns += 1;
        match read_some(rt, mode, state, line, chunk, out) {
            Turn::More(next) => {
                state = next;
            }
            Turn::End => {
                return Turn::More(state);
            }
            Turn::Stopped => {
                return Turn::Stopped;
            }
        }
    }
    stop(rt, b": too many reads\n");
    Turn::Stopped
}

// One read, and the rows of the questions that end in it.
fn read_some(
    rt: &HostRuntime,
    mode: Mode,
    state: SoFar,
    line: &mut [u8],
    chunk: &mut [u8],
    out: &mut [u8],
) -> Turn<SoFar> {
    match stream_io::read(
        rt.stderr(),
        &mut rt.stdin(),
        chunk,
        b"captures: standard input",
    ) {
        Taken::Bytes(n) => feed(rt, mode, state, line, &chunk[..n], out),
        Taken::End => Turn::End,
        Taken::Failed => Turn::Stopped,
    }
}

fn feed(
    rt: &HostRuntime,
    mode: Mode,
    state: SoFar,
    line: &mut [u8],
    chunk: &[u8],
    out: &mut [u8],
) -> Turn<SoFar> {
    match captures_feed::feed(mode, state, line, chunk, out) {
        Ok((next, wrote)) => {
            if write(rt, &out[..wrote]) {
                return Turn::More(next);
            }
        }
        Err(Unwritten::Full) => {
            stop(rt, b": too little room for rows\n");
        }
        Err(Unwritten::Many) => {
            stop(rt, b": more lines than 64 bits count\n");
        }
        Err(Unwritten::Refused(_)) => {
            stop(rt, b": no line buffer\n");
        }
    }
    Turn::Stopped
}

fn finish(rt: &HostRuntime, mode: Mode, state: SoFar, line: &[u8], out: &mut [u8]) -> bool {
    match captures_feed::finish(mode, state, line, out) {
        Ok(wrote) => write(rt, &out[..wrote]),
        Err(Unwritten::Full) => stop(rt, b": too little room for the last rows\n"),
        Err(Unwritten::Many) => stop(rt, b": more lines than 64 bits count\n"),
        Err(Unwritten::Refused(_)) => stop(rt, b": no line buffer\n"),
    }
}

fn write(rt: &HostRuntime, rows: &[u8]) -> bool {
    stream_io::write_all(
        rt.stderr(),
        &mut rt.stdout(),
        rows,
        b"captures: standard output",
    )
}

// Nothing more is written.
fn stop(rt: &HostRuntime, reason: &[u8]) -> bool {
    stream_io::say(rt.stderr(), b"captures", reason);
    false
}
