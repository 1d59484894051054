// The reads and writes that the programs share: what std does with a file or a standard stream, and what crate stream decides of it.
//
// Which bytes the system gives and keeps no promise can say, so these functions are few and thin; of a reader and a writer whose bytes are
// known, as a buffer's, the promises do. Each reason goes to standard error, as `program: what failed: why`.
#![tactic(auto)]

ghost use Rattle.std.specs.Prelude.{◌≡◌, ◌^◌, ◌<◌, ◌≤◌, length, take};
ghost use Rattle.std.specs.Io.KnownBytes.{Consumes};
ghost use Rattle.stream_io.specs.Bounds.{CopiesWithin, OpensWithin, PutsNothing, ReadsWithin, WritesNothing};
ghost use Rattle.stream_io.specs.Known.{AllPut, BytesPut, BytesTaken, count_said, IsBroken, ReadCame, WentWithin, WriteCame};

use std::env::FillError;
use std::fs;
use std::fs::{OpenFile, OpenOptions};
use std::io::{Cursor, Error, ErrorKind, Read, Result, Stderr, Stdout, Write};
use std::os::fd::AsFd;
use std::rt::{Env, Files};

// Where a program says that all it had to write is written: a pipe of who started it. A status of its own it gives none.
const STATUS: i32 = 3;

// So often it is said again where a signal breaks the call off: nobody may listen there.
const TIMES: u32 = 64;

// Standard output by its name, for what only a file can be asked.
const OUTPUT: &str = "/proc/self/fd/1";

// The numbers that the system gives: there is no such descriptor, there is no such argument, the name is too long, the name is no text.
const EBADF: i32 = 9;

const EINVAL: i32 = 22;

const ENAMETOOLONG: i32 = 36;

const EILSEQ: i32 = 84;

// More than a reason takes.
const REASON: usize = 128;

// What there is to work on: so many bytes at the start of the buffer, the end of the input, or nothing more, and the reason was said.
// No `Result`: a failure leaves no error to hand on.
#[derive(Clone, Copy)]
pub enum Taken {
    Bytes(usize),
    End,
    Failed,
}

// What follows a read of a program, which keeps so much: another one, the end of the input, or nothing more, and the reason was said.
#[derive(Clone, Copy)]
pub enum Turn<S> {
    More(S),
    End,
    Stopped,
}

// What came of writing all.
#[derive(Clone, Copy)]
enum Put {
    Whole,
    Failed(Error),
    Nothing,
    TooMany,
}

// Reads once, and again where a signal broke it off.
pub fn read<R: Read>(errors: Stderr, from: &mut R, buf: &mut [u8], what: &[u8]) -> Taken
    ensures within { ReadsWithin buf.old what.now buf.new result }
    ensures bytes { length buf.old < 2 ^ 63 → BytesTaken (R.remaining from.old) (R.remaining from.new) buf.new result }
{
    let mut turns: u64 = 0;
    while stream::may_go_on(turns) {
        turns += 1;
        let got = from.read(buf);
        match came(&got, buf.len()) {
            stream::Read::Bytes(n) => {
                return Taken::Bytes(n);
            }
            stream::Read::End => {
                return Taken::End;
            }
            stream::Read::Again => {}
            stream::Read::Failed => {
                fail_call(errors, what, &got);
                return Taken::Failed;
            }
            stream::Read::NoRoom => {
                say(errors, what, b": no room to read into\n");
                return Taken::Failed;
            }
        }
    }
    say(errors, what, b": too many reads\n");
    Taken::Failed
}

// Reads until the buffer is full, the input ends, or a read fails, whose reason was said: so many bytes are at the start of the buffer.
#[tactic(auto, using(crate::proofs::Written::filled))]
pub fn read_full<R: Read>(errors: Stderr, from: &mut R, buf: &mut [u8], what: &[u8]) -> usize
    ensures within { CopiesWithin buf.new result }
    ensures bytes { length buf.old < 2 ^ 63 → Consumes (R.remaining from.old) (R.remaining from.new) (take result buf.new) }
{
    let mut done = 0;
    let mut turns: u64 = 0;
    while stream::more(buf.len(), done, turns) {
        turns += 1;
        match read(errors, from, &mut buf[done..], what) {
            Taken::Bytes(n) => {
                done += n;
            }
            Taken::End => {
                return done;
            }
            Taken::Failed => {
                return done;
            }
        }
    }
    done
}

// Puts an argument at the start of the buffer: its length, and 0 where there is none, or it is longer than the buffer.
pub fn argument<R: Env>(rt: &R, i: usize, buf: &mut [u8]) -> usize
    ensures { CopiesWithin buf.new result }
{
    match rt.arg(i, buf) {
        Ok(n) => n,
        Err(_) => 0,
    }
}

// How many arguments there are, the program's own name among them.
pub fn argument_count<R: Env>(rt: &R) -> usize {
    let mut none = [0u8; 0];
    for i in 0..usize::MAX {
        if let Err(FillError::NotPresent) = rt.arg(i, &mut none) {
            return i;
        }
    }
    usize::MAX
}

// Opens the file that an argument names, to read it: the file, and how many bytes of the buffer are its name; or nothing, and the reason was said.
pub fn open_argument<R: Files + Env>(
    rt: &R,
    errors: Stderr,
    i: usize,
    name: &mut [u8],
) -> Option<(R::File, usize)>
    ensures { OpensWithin i name.old name.new result }
{
    match rt.arg(i, name) {
        Ok(n) => match open(rt, &name[..n]) {
            Ok(file) => Some((file, n)),
            Err(error) => {
                fail(errors, &name[..n], &error);
                None
            }
        },
        Err(FillError::NotPresent) => {
            fail(
                errors,
                b"the name of a file",
                &Error::from_raw_os_error(EINVAL),
            );
            None
        }
        Err(FillError::TooLong) => {
            fail(
                errors,
                b"the name of a file",
                &Error::from_raw_os_error(ENAMETOOLONG),
            );
            None
        }
    }
}

// To std a name is text.
fn open<R: Files>(rt: &R, name: &[u8]) -> Result<R::File> {
    match std::str::from_utf8(name) {
        Ok(text) => fs::open(rt, text),
        Err(_) => Err(Error::from_raw_os_error(EILSEQ)),
    }
}

// A file that was read to its end: that it can't be closed loses nothing.
pub fn close<F: Drop>(_file: F) {}

// Writes all of it, or says why not.
pub fn write_all<W: Write>(errors: Stderr, to: &mut W, bytes: &[u8], what: &[u8]) -> bool
    ensures empty { WritesNothing bytes.now what.now result }
    ensures bytes { length bytes.now < 2 ^ 63 → AllPut (W.contents to.old) (W.contents to.new) bytes.now result }
{
    match put_all(to, bytes) {
        Put::Whole => true,
        Put::Failed(error) => {
            fail(errors, what, &error);
            false
        }
        Put::Nothing => {
            say(errors, what, b": a write took nothing\n");
            false
        }
        Put::TooMany => {
            say(errors, what, b": too many writes\n");
            false
        }
    }
}

// A write may take a part: the next goes on behind it.
#[tactic(auto, using(crate::proofs::Written::written))]
fn put_all<W: Write>(to: &mut W, bytes: &[u8]) -> Put
    ensures empty { PutsNothing bytes.now result }
    ensures bytes { length bytes.now < 2 ^ 63 → BytesPut (W.contents to.old) (W.contents to.new) bytes.now result }
{
    let mut done = 0;
    let mut turns: u64 = 0;
    while stream::more(bytes.len(), done, turns) {
        turns += 1;
        let put = to.write(&bytes[done..]);
        match went(&put, bytes.len(), done) {
            stream::Write::To(next) => {
                done = next;
            }
            stream::Write::Failed => {
                return failed(&put);
            }
            stream::Write::Nothing => {
                return Put::Nothing;
            }
        }
    }
    if stream::left(bytes.len(), done) == 0 {
        return Put::Whole;
    }
    Put::TooMany
}

fn failed(put: &Result<usize>) -> Put
    ensures { IsBroken result }
{
    match *put {
        Ok(_) => Put::Nothing,
        Err(error) => Put::Failed(error),
    }
}

// What a read came to, and what a write, by what std answers.
fn came(got: &Result<usize>, room: usize) -> stream::Read
    ensures { ReadCame got.now room result }
{
    stream::Read::of(count(got), number(got), room)
}

fn went(put: &Result<usize>, size: usize, done: usize) -> stream::Write
    ensures came { WriteCame put.now size done result }
    ensures within { done ≤ size → WentWithin size result }
{
    stream::Write::of(count(put), number(put), size, done)
}

// A call's answer as the system gives it: the count, and below 0 where the call failed.
fn count(answer: &Result<usize>) -> isize
    ensures { result ≡ count_said answer.now }
{
    match *answer {
        Ok(n) => match isize::try_from(n) {
            Ok(count) => count,
            Err(_) => isize::MAX,
        },
        Err(_) => -1,
    }
}

// The error number after it.
fn number(answer: &Result<usize>) -> i32 {
    match *answer {
        Ok(_) => 0,
        Err(error) => error.raw_os_error().unwrap_or(0),
    }
}

// A call that gives no count, as the system answers it.
fn status(answer: &Result<()>) -> i32 {
    match *answer {
        Ok(()) => 0,
        Err(_) => -1,
    }
}

// On standard error, whether or not anyone hears it.
pub fn say(errors: Stderr, what: &[u8], reason: &[u8]) {
    let mut to = errors;
    put_all(&mut to, what);
    put_all(&mut to, reason);
}

fn fail_call<T>(errors: Stderr, what: &[u8], answer: &Result<T>) {
    if let Err(error) = answer {
        fail(errors, what, error);
    }
}

// What failed, and the system's own text of why.
fn fail(errors: Stderr, what: &[u8], error: &Error) {
    let mut text = Cursor::new([0u8; REASON]);
    let _ = write!(text, "{error}");
    let n = text.position();
    let room = text.into_inner();
    say(errors, what, b": ");
    say(errors, reason(&room, n), b"\n");
}

// The text without the number that std puts behind it.
fn reason(room: &[u8], n: u64) -> &[u8] {
    let Some(told) = room.get(..n as usize) else {
        return room;
    };
    let Ok(text) = std::str::from_utf8(told) else {
        return told;
    };
    match text.split_once(" (os error ") {
        Some((why, _)) => why.as_bytes(),
        None => told,
    }
}

// The last thing that a program does, and only where its last row was written: standard output is settled, since a disk may tell only
// then that a write was lost, and `whole` goes to descriptor 3.
pub fn say_whole<R: Files>(rt: &R, output: Stdout, errors: Stderr, what: &[u8]) {
    let settled = settle(rt, output);
    if stream::failed(status(&settled)) {
        fail_call(errors, what, &settled);
        return;
    }
    for _ in 0..TIMES {
        if io::write_all(STATUS, b"whole\n") {
            return;
        }
    }
}

// Whether output is still open, and what was written is kept. std tells of no close that fails, so a file is asked before.
fn settle<R: Files>(rt: &R, output: Stdout) -> Result<()> {
    is_open(output)?;
    keep(rt)
}

// Only one error says that it is not; that there is no room for a second descriptor says nothing of the first.
fn is_open(output: Stdout) -> Result<()> {
    match output.as_fd().try_clone_to_owned() {
        Err(error) if error.raw_os_error() == Some(EBADF) => Err(error),
        _ => Ok(()),
    }
}

// A pipe and a terminal keep nothing. What can't be opened a second time can't be asked, and is not said to be whole; a file that knows no
// such call keeps what it was given.
fn keep<R: Files>(rt: &R) -> Result<()> {
    let known = fs::metadata(rt, OUTPUT)?;
    if !known.is_file() {
        return Ok(());
    }
    let file = again(rt)?;
    match file.sync_data() {
        Err(error) if error.kind() != ErrorKind::InvalidInput => Err(error),
        _ => Ok(()),
    }
}

// To write, or where only reading is allowed, to read: asking needs neither.
fn again<R: Files>(rt: &R) -> Result<R::File> {
    match OpenOptions::new().append(true).open(rt, OUTPUT) {
        Ok(file) => Ok(file),
        Err(_) => fs::open(rt, OUTPUT),
    }
}
