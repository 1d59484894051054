// Reads a collection on standard input, or in the files that its arguments name, and writes a row for each line and the totals: reads,
// feeds, writes, and nothing else. With `--profile real-play` before the files, by what the lines say under that profile.
//
// What a read, a write and an error number mean stands in crate stream. Where one fails, or a loop comes to its bound, the rows so far
// stay, no last row follows them, and the reason goes to standard error; that all is written is said on descriptor 3, last of all.
#![tactic(auto)]

use ledger_feed::{SoFar, Unwritten};
use ledger_files::Ending;
use line_profile::Profile;
use std::io::Read;
use stream_io::{Taken, Turn};

// The room for an option or its value. What does not fit is none that the program knows.
const WORD: usize = 16;

fn main(rt: HostRuntime) {
    let mut chunk = io::buffer();
    let mut out = [0u8; 131072];
    if write_ledger(&rt, &mut chunk, &mut out) {
        stream_io::say_whole(&rt, rt.stdout(), rt.stderr(), b"ledger: standard output");
    }
}

// What the arguments ask for: whether all of it is written.
fn write_ledger(rt: &HostRuntime, chunk: &mut [u8], out: &mut [u8]) -> bool {
    let mut first = [0u8; WORD];
    let n = stream_io::argument(rt, 1, &mut first);
    let mut second = [0u8; WORD];
    let m = stream_io::argument(rt, 2, &mut second);
    match ledger_asked::read_call(&first[..n], &second[..m]) {
        Some((profile, files)) => write_rows(rt, profile, files, chunk, out),
        None => stop(rt, b": there is no such profile\n"),
    }
}

// All reads, and then the last rows: whether all of them are written.
fn write_rows(
    rt: &HostRuntime,
    profile: Profile,
    files: usize,
    chunk: &mut [u8],
    out: &mut [u8],
) -> bool {
    let mut line = [0u8; line_cut::LINE];
    let read = read_all(rt, profile, files, &mut line, chunk, out);
    let Turn::More(state) = read else {
        return false;
    };
    finish(rt, profile, state, &line, out)
}

// The files one after another, or standard input where none is named.
fn read_all(
    rt: &HostRuntime,
    profile: Profile,
    files: usize,
    line: &mut [u8],
    chunk: &mut [u8],
    out: &mut [u8],
) -> Turn<SoFar> {
    let state = ledger_feed::start();
    let count = stream_io::argument_count(rt);
    if count <= files {
        return read_to_end(
            rt,
            profile,
            &mut rt.stdin(),
            b"ledger: standard input",
            state,
            line,
            chunk,
            out,
        );
    }
    read_files(rt, profile, files, count, state, line, chunk, out)
}

fn read_files(
    rt: &HostRuntime,
    profile: Profile,
    files: usize,
    count: usize,
    state: SoFar,
    line: &mut [u8],
    chunk: &mut [u8],
    out: &mut [u8],
) -> Turn<SoFar> {
    let mut state = state;
    for i in files..count {
        match read_file(rt, profile, i, state, line, chunk, out) {
            Turn::More(next) => {
                state = next;
            }
            Turn::End => {
                return Turn::Stopped;
            }
            Turn::Stopped => {
                return Turn::Stopped;
            }
        }
    }
    Turn::More(state)
}

fn read_file(
    rt: &HostRuntime,
    profile: Profile,
    i: usize,
    state: SoFar,
    line: &mut [u8],
    chunk: &mut [u8],
    out: &mut [u8],
) -> Turn<SoFar> {
    let mut name = io::buffer();
    match stream_io::open_argument(rt, rt.stderr(), i, &mut name) {
        Some((mut file, n)) => {
            let read = read_to_end(rt, profile, &mut file, &name[..n], state, line, chunk, out);
            stream_io::close(file);
            end_file(rt, profile, read, line, out)
        }
        None => Turn::Stopped,
    }
}

// A file's end ends its last line.
fn end_file(
    rt: &HostRuntime,
    profile: Profile,
    read: Turn<SoFar>,
    line: &mut [u8],
    out: &mut [u8],
) -> Turn<SoFar> {
    let Turn::More(state) = read else {
        return Turn::Stopped;
    };
    match ledger_files::closing(state) {
        Ending::Nothing => Turn::More(state),
        Ending::Lf => feed(rt, profile, state, line, b"\n", out),
        Ending::CrLf => feed(rt, profile, state, line, b"\r\n", out),
    }
}

// All reads of one input, and the rows of the lines that end in them.
fn read_to_end<R: Read>(
    rt: &HostRuntime,
    profile: Profile,
    from: &mut R,
    what: &[u8],
    state: SoFar,
    line: &mut [u8],
    chunk: &mut [u8],
    out: &mut [u8],
) -> Turn<SoFar> {
    let mut state = state;
    let mut turns: u64 = 0;
    while stream::may_go_on(turns) {
        turns += 1;
        match read_some(rt, profile, from, what, state, line, chunk, out) {
            Turn::More(next) => {
                state = next;
            }
            Turn::End => {
                return Turn::More(state);
            }
            Turn::Stopped => {
                return Turn::Stopped;
            }
        }
    }
    stop(rt, b": too many reads\n");
    Turn::Stopped
}

// One read, and the rows of the lines that end in it.
fn read_some<R: Read>(
    rt: &HostRuntime,
    profile: Profile,
    from: &mut R,
    what: &[u8],
    state: SoFar,
    line: &mut [u8],
    chunk: &mut [u8],
    out: &mut [u8],
) -> Turn<SoFar> {
    match stream_io::read(rt.stderr(), from, chunk, what) {
        Taken::Bytes(n) => feed(rt, profile, state, line, &chunk[..n], out),
        Taken::End => Turn::End,
        Taken::Failed => Turn::Stopped,
    }
}

fn feed(
    rt: &HostRuntime,
    profile: Profile,
    state: SoFar,
    line: &mut [u8],
    chunk: &[u8],
    out: &mut [u8],
) -> Turn<SoFar> {
    match ledger_feed::feed(profile, state, line, chunk, out) {
        Ok((next, wrote)) => {
            if write(rt, &out[..wrote]) {
                return Turn::More(next);
            }
        }
        Err(Unwritten::Full) => {
            stop(rt, b": too little room for rows\n");
        }
        Err(Unwritten::Many) => {
            stop(rt, b": more lines than 64 bits count\n");
        }
        Err(Unwritten::Refused(_)) => {
            stop(rt, b": no line buffer\n");
        }
    }
    Turn::Stopped
}

fn finish(rt: &HostRuntime, profile: Profile, state: SoFar, line: &[u8], out: &mut [u8]) -> bool {
    match ledger_finish::finish(profile, state, line, out) {
        Ok(wrote) => write(rt, &out[..wrote]),
        Err(Unwritten::Full) => stop(rt, b": too little room for the last rows\n"),
        Err(Unwritten::Many) => stop(rt, b": more lines than 64 bits count\n"),
        Err(Unwritten::Refused(_)) => stop(rt, b": no line buffer\n"),
    }
}

fn write(rt: &HostRuntime, rows: &[u8]) -> bool {
    stream_io::write_all(
        rt.stderr(),
        &mut rt.stdout(),
        rows,
        b"ledger: standard output",
    )
}

// Nothing more is written.
fn stop(rt: &HostRuntime, reason: &[u8]) -> bool {
    stream_io::say(rt.stderr(), b"ledger", reason);
    false
}
