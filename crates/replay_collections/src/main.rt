// Collections one after another on standard input, each ended by RS and fed byte by byte: the ledger of each, and the row of its error. GS
// stands for a million spaces. So ends of input, and lines longer than a file here should hold, are tried too.
#![tactic(auto)]

use ledger_feed::{SoFar, Unwritten};
use line_profile::Profile;
use score_collection::Gathered;
use std::io;
use stream_io::Taken;

const RS: u8 = 0x1e;

const GS: u8 = 0x1d;

// So many bytes are read at a time.
const CHUNK: usize = 4096;

// What both have of a collection so far; each has a line buffer of its own beside it.
#[derive(Clone, Copy)]
struct Both {
    ledger: SoFar,
    error: Gathered,
}

fn main(rt: HostRuntime) -> io::Result<()> {
    let mut chunk = [0u8; CHUNK];
    write_all(&rt, &mut chunk)
}

fn start() -> Both {
    Both {
        ledger: ledger_feed::start(),
        error: score_collection::begin(),
    }
}

// A proved loop has to end: the reads are counted, up to more than any run makes.
fn write_all(rt: &HostRuntime, chunk: &mut [u8]) -> io::Result<()> {
    let mut line = [0u8; line_cut::LINE];
    let mut other = [0u8; line_cut::LINE];
    let mut state = start();
    for _ in 0..1000000 {
        let what = b"replay_collections: standard input";
        match stream_io::read(rt.stderr(), &mut rt.stdin(), chunk, what) {
            Taken::Bytes(n) => {
                state = each(rt, state, &mut line, &mut other, &chunk[..n])?;
            }
            Taken::End => {
                return Ok(());
            }
            Taken::Failed => {
                return Ok(());
            }
        }
    }
    Ok(())
}

fn each(
    rt: &impl Print,
    state: Both,
    line: &mut [u8],
    other: &mut [u8],
    bytes: &[u8],
) -> io::Result<Both> {
    let mut now = state;
    for byte in bytes {
        now = one(rt, now, line, other, *byte)?;
    }
    Ok(now)
}

fn one(
    rt: &impl Print,
    state: Both,
    line: &mut [u8],
    other: &mut [u8],
    byte: u8,
) -> io::Result<Both> {
    if byte == RS {
        finish(rt, state.ledger, line)?;
        write_error(rt, state.error, other)?;
        return Ok(start());
    }
    if byte == GS {
        return spaces(rt, state, line, other);
    }
    let chunk = [byte; 1];
    feed(rt, state, line, other, &chunk)
}

// A million spaces, a thousand at a time.
fn spaces(rt: &impl Print, state: Both, line: &mut [u8], other: &mut [u8]) -> io::Result<Both> {
    let blank = [b' '; 1000];
    let mut now = state;
    for _ in 0..1000 {
        now = feed(rt, now, line, other, &blank)?;
    }
    Ok(now)
}

fn feed(
    rt: &impl Print,
    state: Both,
    line: &mut [u8],
    other: &mut [u8],
    chunk: &[u8],
) -> io::Result<Both> {
    let ledger = feed_ledger(rt, state.ledger, line, chunk)?;
    let error = feed_error(state.error, other, chunk);
    Ok(Both { ledger, error })
}

fn feed_ledger(rt: &impl Print, state: SoFar, line: &mut [u8], chunk: &[u8]) -> io::Result<SoFar> {
    let mut out = [0u8; 32];
    match ledger_feed::feed(Profile::Any, state, line, chunk, &mut out) {
        Ok((next, wrote)) => {
            put(rt, &out, wrote)?;
            Ok(next)
        }
        Err(Unwritten::Full) => Ok(state),
        Err(Unwritten::Many) => Ok(state),
        Err(Unwritten::Refused(_)) => Ok(state),
    }
}

fn feed_error(gathered: Gathered, line: &mut [u8], chunk: &[u8]) -> Gathered {
    match score_collection::feed(gathered, line, chunk) {
        Ok(next) => next,
        Err(_) => gathered,
    }
}

fn finish(rt: &impl Print, state: SoFar, line: &[u8]) -> io::Result<()> {
    let mut out = [0u8; 116];
    if let Ok(wrote) = ledger_finish::finish(Profile::Any, state, line, &mut out) {
        put(rt, &out, wrote)?;
    }
    Ok(())
}

fn write_error(rt: &impl Print, gathered: Gathered, line: &[u8]) -> io::Result<()> {
    let mut out = [0u8; 164];
    if let Ok(Some(wrote)) = score_row::write(gathered, line, &mut out) {
        put(rt, &out, wrote)?;
    }
    Ok(())
}

fn put(rt: &impl Print, out: &[u8], n: usize) -> io::Result<()> {
    if n <= out.len() {
        rt.write_all(&out[..n])?;
    }
    Ok(())
}
