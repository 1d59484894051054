// Reads a store of records on standard input and writes the line of each that is loaded: reads, sifts, writes, and nothing else.
//
// What a read, a write and an error number mean stands in crate stream, what a record's line is in line_spell, which records are loaded and the
// rows of the others in store_sift. The rows and the ledger's last row go to standard error. Where a read or a write fails, or a loop comes to its
// bound, no last row follows and the reason is said; that all is as it should be is said on descriptor 3, last of all.
#![tactic(auto)]

ghost use Rattle.std.specs.Prelude.{◌≡◌, ◌+◌};
ghost use Rattle.ledger_finish.specs.Promises.{unfinished};
ghost use Rattle.sift_allowed.specs.Settled.{output_stands};

use ledger_feed::Unwritten;
use sift_form::Form;
use store_record::inner::RECORD;
use store_rows::StoreSoFar;
use stream_io::{Taken, Turn};

// Room for the lines of as many records as a read may end, and for as many rows.
const LINES: usize = 16384;

const ROWS: usize = 8192;

fn main(rt: HostRuntime) {
    let mut chunk = io::buffer();
    let mut lines = [0u8; LINES];
    let mut rows = [0u8; ROWS];
    if unpack(&rt, &mut chunk, &mut lines, &mut rows) {
        stream_io::say_whole(&rt, rt.stdout(), rt.stderr(), b"unpack: standard output");
    }
}

// Whether the output stands: no record was refused, nor bytes left over, or refused ones are allowed.
fn settled(state: StoreSoFar, allowed: bool) -> bool
    ensures { result ≡ output_stands (state.refused + unfinished state.held) allowed }
{
    if 0 < state.held {
        return allowed;
    }
    sift_allowed::settled(state.refused, allowed)
}

// All reads, and then the last rows: whether all is written, and as it should be.
fn unpack(rt: &HostRuntime, chunk: &mut [u8], lines: &mut [u8], rows: &mut [u8]) -> bool {
    let mut piece = [0u8; RECORD];
    let read = read_to_end(rt, &mut piece, chunk, lines, rows);
    let Turn::More(state) = read else {
        return false;
    };
    if !finish(rt, state, rows) {
        return false;
    }
    settled(state, sift_allowed::allows(rt))
}

// All reads, and the lines of the records that end in them.
fn read_to_end(
    rt: &HostRuntime,
    piece: &mut [u8],
    chunk: &mut [u8],
    lines: &mut [u8],
    rows: &mut [u8],
) -> Turn<StoreSoFar> {
    let mut state = store_rows::start();
    let mut turns: u64 = 0;
    while stream::may_go_on(turns) {
        turns += 1;
        match read_some(rt, state, piece, chunk, lines, rows) {
            Turn::More(next) => {
                state = next;
            }
            Turn::End => {
                return Turn::More(state);
            }
            Turn::Stopped => {
                return Turn::Stopped;
            }
        }
    }
    stop(rt, b": too many reads\n");
    Turn::Stopped
}

// One read, and the lines of the records that end in it.
fn read_some(
    rt: &HostRuntime,
    state: StoreSoFar,
    piece: &mut [u8],
    chunk: &mut [u8],
    lines: &mut [u8],
    rows: &mut [u8],
) -> Turn<StoreSoFar> {
    match stream_io::read(
        rt.stderr(),
        &mut rt.stdin(),
        chunk,
        b"unpack: standard input",
    ) {
        Taken::Bytes(n) => feed(rt, state, piece, &chunk[..n], lines, rows),
        Taken::End => Turn::End,
        Taken::Failed => Turn::Stopped,
    }
}

fn feed(
    rt: &HostRuntime,
    state: StoreSoFar,
    piece: &mut [u8],
    chunk: &[u8],
    lines: &mut [u8],
    rows: &mut [u8],
) -> Turn<StoreSoFar> {
    match store_sift::feed(state, Form::Text, piece, chunk, lines, rows) {
        Ok((next, written, told)) => {
            if write(rt, &lines[..written], &rows[..told]) {
                return Turn::More(next);
            }
        }
        Err(Unwritten::Full) => {
            stop(rt, b": too little room for lines\n");
        }
        Err(Unwritten::Many) => {
            stop(rt, b": more records than 64 bits count\n");
        }
        Err(Unwritten::Refused(_)) => {
            stop(rt, b": no piece buffer\n");
        }
    }
    Turn::Stopped
}

// The row of bytes that are left over, and the ledger's last row.
fn finish(rt: &HostRuntime, state: StoreSoFar, rows: &mut [u8]) -> bool {
    match store_finish::finish(state, rows) {
        Ok(told) => tell(rt, &rows[..told]),
        Err(Unwritten::Full) => stop(rt, b": too little room for the last rows\n"),
        Err(Unwritten::Many) => stop(rt, b": more records than 64 bits count\n"),
        Err(Unwritten::Refused(_)) => stop(rt, b": no piece buffer\n"),
    }
}

// The lines on standard output, and then the rows on standard error.
fn write(rt: &HostRuntime, lines: &[u8], rows: &[u8]) -> bool {
    if !stream_io::write_all(
        rt.stderr(),
        &mut rt.stdout(),
        lines,
        b"unpack: standard output",
    ) {
        return false;
    }
    tell(rt, rows)
}

fn tell(rt: &HostRuntime, rows: &[u8]) -> bool {
    stream_io::write_all(
        rt.stderr(),
        &mut rt.stderr(),
        rows,
        b"unpack: standard error",
    )
}

// Nothing more is written.
fn stop(rt: &HostRuntime, reason: &[u8]) -> bool {
    stream_io::say(rt.stderr(), b"unpack", reason);
    false
}
