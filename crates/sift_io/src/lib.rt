// The program that sifts a collection on standard input: reads, sifts, writes what is made of each loaded line, and nothing else. The form is its caller's.
//
// What a read, a write and an error number mean stands in crate stream, what is made of a line in sift_form, which lines are loaded and the
// rows of the others in sift_feed. The rows and the ledger's last row go to standard error. Where a read or a write fails, or a loop comes to its
// bound, no last row follows and the reason is said; that all is as it should be is said on descriptor 3, last of all.
#![tactic(auto)]

use ledger_feed::{SoFar, Unwritten};
use ledger_files::Ending;
use line_profile::Profile;
use sift_form::Form;
use stream_io::{Taken, Turn};

// Room for what is made of as many lines as a read may have, in the form of a text or a shorter one, and for as many rows.
const MADE: usize = 409600;

const ROWS: usize = 131072;

// The whole program. The three texts are what a fault of standard input, output and error is said of, as `rewrite: standard input`.
pub fn run(rt: &HostRuntime, form: Form, input: &[u8], output: &[u8], errors: &[u8]) {
    let mut chunk = io::buffer();
    let mut made = [0u8; MADE];
    let mut rows = [0u8; ROWS];
    if sift(
        rt, form, &mut chunk, &mut made, &mut rows, input, output, errors,
    ) {
        stream_io::say_whole(rt, rt.stdout(), rt.stderr(), output);
    }
}

// All reads, and then the last rows: whether all is written, and as it should be.
fn sift(
    rt: &HostRuntime,
    form: Form,
    chunk: &mut [u8],
    made: &mut [u8],
    rows: &mut [u8],
    input: &[u8],
    output: &[u8],
    errors: &[u8],
) -> bool {
    let mut line = [0u8; line_cut::LINE];
    let read = read_all(
        rt, form, &mut line, chunk, made, rows, input, output, errors,
    );
    let Turn::More(state) = read else {
        return false;
    };
    if !finish(rt, state, &line, rows, errors) {
        return false;
    }
    sift_allowed::settled(state.refused, sift_allowed::allows(rt))
}

// All reads, and the end of the input.
fn read_all(
    rt: &HostRuntime,
    form: Form,
    line: &mut [u8],
    chunk: &mut [u8],
    made: &mut [u8],
    rows: &mut [u8],
    input: &[u8],
    output: &[u8],
    errors: &[u8],
) -> Turn<SoFar> {
    let read = read_to_end(rt, form, line, chunk, made, rows, input, output, errors);
    let Turn::More(state) = read else {
        return Turn::Stopped;
    };
    end_input(rt, state, form, line, made, rows, output, errors)
}

// The end of the input ends its last line, so that all lines are counted before the last row.
fn end_input(
    rt: &HostRuntime,
    state: SoFar,
    form: Form,
    line: &mut [u8],
    made: &mut [u8],
    rows: &mut [u8],
    output: &[u8],
    errors: &[u8],
) -> Turn<SoFar> {
    match ledger_files::closing(state) {
        Ending::Nothing => Turn::More(state),
        Ending::Lf => feed(rt, state, form, line, b"\n", made, rows, output, errors),
        Ending::CrLf => feed(rt, state, form, line, b"\r\n", made, rows, output, errors),
    }
}

// All reads, and what is made of the lines that end in them.
fn read_to_end(
    rt: &HostRuntime,
    form: Form,
    line: &mut [u8],
    chunk: &mut [u8],
    made: &mut [u8],
    rows: &mut [u8],
    input: &[u8],
    output: &[u8],
    errors: &[u8],
) -> Turn<SoFar> {
    let mut state = ledger_feed::start();
    let mut turns: u64 = 0;
    while stream::may_go_on(turns) {
        turns += 1;
        match read_some(
            rt, state, form, line, chunk, made, rows, input, output, errors,
        ) {
            Turn::More(next) => {
                state = next;
            }
            Turn::End => {
                return Turn::More(state);
            }
            Turn::Stopped => {
                return Turn::Stopped;
            }
        }
    }
    stop(rt, input, b": too many reads\n");
    Turn::Stopped
}

// One read, and what is made of the lines that end in it.
fn read_some(
    rt: &HostRuntime,
    state: SoFar,
    form: Form,
    line: &mut [u8],
    chunk: &mut [u8],
    made: &mut [u8],
    rows: &mut [u8],
    input: &[u8],
    output: &[u8],
    errors: &[u8],
) -> Turn<SoFar> {
    match stream_io::read(rt.stderr(), &mut rt.stdin(), chunk, input) {
        Taken::Bytes(n) => feed(
            rt,
            state,
            form,
            line,
            &chunk[..n],
            made,
            rows,
            output,
            errors,
        ),
        Taken::End => Turn::End,
        Taken::Failed => Turn::Stopped,
    }
}

fn feed(
    rt: &HostRuntime,
    state: SoFar,
    form: Form,
    line: &mut [u8],
    chunk: &[u8],
    made: &mut [u8],
    rows: &mut [u8],
    output: &[u8],
    errors: &[u8],
) -> Turn<SoFar> {
    match sift_feed::feed(state, form, line, chunk, made, rows) {
        Ok((next, written, told)) => {
            if write(rt, &made[..written], &rows[..told], output, errors) {
                return Turn::More(next);
            }
        }
        Err(Unwritten::Full) => {
            stop(rt, output, b": too little room for lines\n");
        }
        Err(Unwritten::Many) => {
            stop(rt, output, b": more lines than 64 bits count\n");
        }
        Err(Unwritten::Refused(_)) => {
            stop(rt, output, b": no line buffer\n");
        }
    }
    Turn::Stopped
}

// No line is unfinished any more: the ledger's end is its last row alone.
fn finish(rt: &HostRuntime, state: SoFar, line: &[u8], rows: &mut [u8], errors: &[u8]) -> bool {
    match ledger_finish::finish(Profile::Any, state, line, rows) {
        Ok(told) => tell(rt, &rows[..told], errors),
        Err(Unwritten::Full) => stop(rt, errors, b": too little room for the last rows\n"),
        Err(Unwritten::Many) => stop(rt, errors, b": more lines than 64 bits count\n"),
        Err(Unwritten::Refused(_)) => stop(rt, errors, b": no line buffer\n"),
    }
}

// What was made on standard output, and then the rows on standard error.
fn write(rt: &HostRuntime, made: &[u8], rows: &[u8], output: &[u8], errors: &[u8]) -> bool {
    if !stream_io::write_all(rt.stderr(), &mut rt.stdout(), made, output) {
        return false;
    }
    tell(rt, rows, errors)
}

fn tell(rt: &HostRuntime, rows: &[u8], errors: &[u8]) -> bool {
    stream_io::write_all(rt.stderr(), &mut rt.stderr(), rows, errors)
}

// Nothing more is written.
fn stop(rt: &HostRuntime, what: &[u8], reason: &[u8]) -> bool {
    stream_io::say(rt.stderr(), what, reason);
    false
}
