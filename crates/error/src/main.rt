// Reads a collection on standard input and writes the row of its error: reads, feeds, writes, and nothing else.
//
// What a read, a write and an error number mean stands in crate stream, what a line does to the totals in score_collection, the row in
// score_row. Where a read or a write fails, a loop comes to its bound, or there are more lines of a kind than are counted, no row is
// written and the reason goes to standard error; that the row is written is said on descriptor 3, last of all.
#![tactic(auto)]

use refusal::Refusal;
use score_collection::Gathered;
use stream_io::{Taken, Turn};

// The row is never longer, whatever its numbers.
const LONGEST: usize = 164;

fn main(rt: HostRuntime) {
    let mut chunk = io::buffer();
    if write_error(&rt, &mut chunk) {
        stream_io::say_whole(&rt, rt.stdout(), rt.stderr(), b"error: standard output");
    }
}

// All reads, and then the row: whether it is written.
fn write_error(rt: &HostRuntime, chunk: &mut [u8]) -> bool {
    let mut line = [0u8; line_cut::LINE];
    let read = read_to_end(rt, &mut line, chunk);
    let Turn::More(gathered) = read else {
        return false;
    };
    finish(rt, gathered, &line)
}

// All reads, and what the lines that end in them come to.
fn read_to_end(rt: &HostRuntime, line: &mut [u8], chunk: &mut [u8]) -> Turn<Gathered> {
    let mut gathered = score_collection::begin();
    let mut turns: u64 = 0;
    while stream::may_go_on(turns) {
        turns += 1;
        match read_some(rt, gathered, line, chunk) {
            Turn::More(next) => {
                gathered = next;
            }
            Turn::End => {
                return Turn::More(gathered);
            }
            Turn::Stopped => {
                return Turn::Stopped;
            }
        }
    }
    stop(rt, b": too many reads\n");
    Turn::Stopped
}

// One read, and the lines that end in it.
fn read_some(
    rt: &HostRuntime,
    gathered: Gathered,
    line: &mut [u8],
    chunk: &mut [u8],
) -> Turn<Gathered> {
    match stream_io::read(
        rt.stderr(),
        &mut rt.stdin(),
        chunk,
        b"error: standard input",
    ) {
        Taken::Bytes(n) => feed(rt, gathered, line, &chunk[..n]),
        Taken::End => Turn::End,
        Taken::Failed => Turn::Stopped,
    }
}

fn feed(rt: &HostRuntime, gathered: Gathered, line: &mut [u8], chunk: &[u8]) -> Turn<Gathered> {
    match score_collection::feed(gathered, line, chunk) {
        Ok(next) => Turn::More(next),
        Err(_) => {
            stop(rt, b": no line buffer\n");
            Turn::Stopped
        }
    }
}

fn finish(rt: &HostRuntime, gathered: Gathered, line: &[u8]) -> bool {
    let mut row = [0u8; LONGEST];
    match score_row::write(gathered, line, &mut row) {
        Ok(Some(wrote)) => write(rt, &row[..wrote]),
        Ok(None) => stop(rt, b": too little room for the row\n"),
        Err(refusal) => stop_refused(rt, refusal),
    }
}

fn stop_refused(rt: &HostRuntime, refusal: Refusal) -> bool {
    match refusal {
        Refusal::Many => stop(rt, b": more than a million lines of a kind\n"),
        _ => stop(rt, b": no line buffer\n"),
    }
}

fn write(rt: &HostRuntime, row: &[u8]) -> bool {
    stream_io::write_all(
        rt.stderr(),
        &mut rt.stdout(),
        row,
        b"error: standard output",
    )
}

// Nothing more is written.
fn stop(rt: &HostRuntime, reason: &[u8]) -> bool {
    stream_io::say(rt.stderr(), b"error", reason);
    false
}
