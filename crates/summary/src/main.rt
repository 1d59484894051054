// Reads a store on standard input, or in the file that an argument names, and writes its summary as a table, with `--svg` as a picture: reads,
// feeds, writes, and nothing else.
//
// What a read, a write and an error number mean stands in crate stream, what a piece of the store does to the summary in store_gather, the
// text in store_text. Where a record is refused its row goes to standard error and nothing to standard output. Where a read or a write fails,
// or a loop comes to its bound, the reason goes to standard error; that the whole text is written is said on descriptor 3, last of all.
#![tactic(auto)]

use std::io::Read;
use store_counts::{RECORDS, SUMMARY};
use store_gather::{First, GatheredSoFar};
use store_record::inner::RECORD;
use store_text::{Call, Form, ROOM, Shown};
use stream_io::{Taken, Turn};

// The room for an option. What does not fit is none that the program knows.
const WORD: usize = 16;

fn main(rt: HostRuntime) {
    let mut chunk = io::buffer();
    let mut out = [0u8; ROOM];
    if write_summary(&rt, &mut chunk, &mut out) {
        stream_io::say_whole(&rt, rt.stdout(), rt.stderr(), b"summary: standard output");
    }
}

// What the arguments ask for: whether all of it is written.
fn write_summary(rt: &HostRuntime, chunk: &mut [u8], out: &mut [u8]) -> bool {
    let mut first = [0u8; WORD];
    let n = stream_io::argument(rt, 1, &mut first);
    match store_text::read_call(&first[..n], stream_io::argument_count(rt)) {
        Call::Input(form) => show_store(
            rt,
            form,
            &mut rt.stdin(),
            b"summary: standard input",
            chunk,
            out,
        ),
        Call::File(form, i) => show_file(rt, form, i, chunk, out),
        Call::TooMany => stop(rt, b": there is more than one store\n"),
    }
}

fn show_file(rt: &HostRuntime, form: Form, i: usize, chunk: &mut [u8], out: &mut [u8]) -> bool {
    let mut name = io::buffer();
    match stream_io::open_argument(rt, rt.stderr(), i, &mut name) {
        Some((mut file, n)) => {
            let shown = show_store(rt, form, &mut file, &name[..n], chunk, out);
            stream_io::close(file);
            shown
        }
        None => false,
    }
}

// All reads, and then the text.
fn show_store<R: Read>(
    rt: &HostRuntime,
    form: Form,
    from: &mut R,
    what: &[u8],
    chunk: &mut [u8],
    out: &mut [u8],
) -> bool {
    let mut piece = [0u8; RECORD];
    let mut summary = [0u64; SUMMARY];
    let read = read_to_end(rt, from, what, &mut piece, chunk, &mut summary);
    let Turn::More(state) = read else {
        return false;
    };
    let first = store_gather::finish(state, summary[RECORDS]);
    show(rt, form, first, &summary, out)
}

// All reads, and the pieces that end in them.
fn read_to_end<R: Read>(
    rt: &HostRuntime,
    from: &mut R,
    what: &[u8],
    piece: &mut [u8],
    chunk: &mut [u8],
    summary: &mut [u64],
) -> Turn<GatheredSoFar> {
    let mut state = store_gather::start();
    let mut turns: u64 = 0;
    while stream::may_go_on(turns) {
        turns += 1;
        match read_some(rt, from, what, state, piece, chunk, summary) {
            Turn::More(next) => {
                state = next;
            }
            Turn::End => {
                return Turn::More(state);
            }
            Turn::Stopped => {
                return Turn::Stopped;
            }
        }
    }
    stop(rt, b": too many reads\n");
    Turn::Stopped
}

// One read, and the pieces that end in it.
fn read_some<R: Read>(
    rt: &HostRuntime,
    from: &mut R,
    what: &[u8],
    state: GatheredSoFar,
    piece: &mut [u8],
    chunk: &mut [u8],
    summary: &mut [u64],
) -> Turn<GatheredSoFar> {
    match stream_io::read(rt.stderr(), from, chunk, what) {
        Taken::Bytes(n) => feed(rt, state, piece, &chunk[..n], summary),
        Taken::End => Turn::End,
        Taken::Failed => Turn::Stopped,
    }
}

fn feed(
    rt: &HostRuntime,
    state: GatheredSoFar,
    piece: &mut [u8],
    chunk: &[u8],
    summary: &mut [u64],
) -> Turn<GatheredSoFar> {
    match store_gather::feed(state, piece, chunk, summary) {
        Ok(next) => Turn::More(next),
        Err(_) => {
            stop(rt, b": no piece buffer\n");
            Turn::Stopped
        }
    }
}

// The text on standard output, or the row of a record that is refused on standard error.
fn show(rt: &HostRuntime, form: Form, first: First, summary: &[u64], out: &mut [u8]) -> bool {
    match store_text::show(form, first, summary, out) {
        Ok(Shown::Page(n)) => {
            stream_io::write_all(
                rt.stderr(),
                &mut rt.stdout(),
                &out[..n],
                b"summary: standard output",
            )
        }
        Ok(Shown::Row(n)) => {
            stream_io::write_all(
                rt.stderr(),
                &mut rt.stderr(),
                &out[..n],
                b"summary: standard error",
            );
            false
        }
        Err(_) => stop(rt, b": too little room for the text\n"),
    }
}

// Nothing more is written.
fn stop(rt: &HostRuntime, reason: &[u8]) -> bool {
    stream_io::say(rt.stderr(), b"summary", reason);
    false
}
