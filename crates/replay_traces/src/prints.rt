// What is said to a question of traces, on standard output.
use refusal::Refusal;
use std::io;
use trace_counts::Trace;

fn write(rt: &impl Print, text: &[u8]) -> io::Result<()> {
    rt.write_all(text)
}

fn natural(rt: &impl Print, n: u64) -> io::Result<()> {
    rt.print(n)
}

fn number(rt: &impl Print, n: i32) -> io::Result<()> {
    if n >= 0 {
        return natural(rt, n as u64);
    }
    write(rt, b"-")?;
    // -1 - n never overflows, and is one less than the number without its sign
    natural(rt, (-1 - n) as u64 + 1)
}

// A space after each.
fn numbers(rt: &impl Print, list: &[i32]) -> io::Result<()> {
    for n in list {
        number(rt, *n)?;
        write(rt, b" ")?;
    }
    Ok(())
}

fn ones(entries: &[i32]) -> usize {
    entries.iter().filter(|entry| **entry == 1).count()
}

// The place of each 1, a space before it.
fn places(rt: &impl Print, entries: &[i32]) -> io::Result<()> {
    for (i, entry) in entries.iter().enumerate() {
        place(rt, i, *entry)?;
    }
    Ok(())
}

fn place(rt: &impl Print, place: usize, entry: i32) -> io::Result<()> {
    if entry == 1 {
        write(rt, b" ")?;
        natural(rt, place as u64)?;
    }
    Ok(())
}

// The 26 numbers, how many entries are 1, and their places.
pub(crate) fn trace(rt: &impl Print, t: Trace, entries: &[i32]) -> io::Result<()> {
    counts(rt, t)?;
    let bishop_pair = t.bishop_pair;
    let mobility = t.mobility;
    let last = [t.side, t.piece_count];
    numbers(rt, &bishop_pair)?;
    numbers(rt, &mobility)?;
    numbers(rt, &last)?;
    natural(rt, ones(entries) as u64)?;
    places(rt, entries)?;
    write(rt, b"\n")
}

fn counts(rt: &impl Print, t: Trace) -> io::Result<()> {
    let pawns = t.pawns;
    let knights = t.knights;
    let bishops = t.bishops;
    let rooks = t.rooks;
    let queens = t.queens;
    numbers(rt, &pawns)?;
    numbers(rt, &knights)?;
    numbers(rt, &bishops)?;
    numbers(rt, &rooks)?;
    numbers(rt, &queens)
}

pub(crate) fn doubled(rt: &impl Print, doubled: Result<f64, Refusal>) -> io::Result<()> {
    let said = match doubled {
        Ok(x) => bits(rt, x),
        Err(r) => refused(rt, r),
    };
    said?;
    write(rt, b"\n")
}

// The bits of a double, but a NaN has many.
fn bits(rt: &impl Print, x: f64) -> io::Result<()> {
    if x != x {
        return write(rt, b"nan");
    }
    natural(rt, f64::to_bits(x))
}

fn refused(rt: &impl Print, r: Refusal) -> io::Result<()> {
    write(rt, b"refused ")?;
    natural(rt, r.number() as u64)
}
