// What there is to say to a question, and how it is written.
use exchange::inner::MOST;
use refusal::Refusal;
use std::io;

#[derive(Clone, Copy)]
pub(crate) enum Reply {
    Nothing,
    Score(i16),
    Attacker(u8, u8),
    Nobody,
    Refused(Refusal),
}

// The answer as a line of standard output.
pub(crate) fn print(rt: &impl Print, reply: Reply) -> io::Result<()> {
    let said = match reply {
        Reply::Nothing => write(rt, b""),
        Reply::Score(z) => score(rt, z),
        Reply::Attacker(square, kind) => attacker(rt, square, kind),
        Reply::Nobody => write(rt, b"none"),
        Reply::Refused(r) => refused(rt, r),
    };
    said?;
    write(rt, b"\n")
}

fn write(rt: &impl Print, text: &[u8]) -> io::Result<()> {
    rt.write_all(text)
}

fn natural(rt: &impl Print, n: u64) -> io::Result<()> {
    rt.print(n)
}

fn score(rt: &impl Print, z: i16) -> io::Result<()> {
    if z >= 0 {
        return natural(rt, z as u64);
    }
    write(rt, b"-")?;
    // -1 - z never overflows, and is one less than the number without its sign
    natural(rt, (-1 - z) as u64 + 1)
}

fn attacker(rt: &impl Print, square: u8, kind: u8) -> io::Result<()> {
    natural(rt, square as u64)?;
    write(rt, b" ")?;
    natural(rt, kind as u64)
}

fn wide(n: u16) -> u64 {
    n as u64
}

// How many, then three numbers each.
pub(crate) fn captures(
    rt: &impl Print,
    squares: &[u8; MOST],
    kinds: &[u8; MOST],
    taken: &[u16; MOST],
    count: usize,
) -> io::Result<()> {
    natural(rt, count as u64)?;
    for i in 0..count.min(MOST) {
        write(rt, b" ")?;
        attacker(rt, squares[i], kinds[i])?;
        write(rt, b" ")?;
        natural(rt, wide(taken[i]))?;
    }
    write(rt, b" ")
}

// Where the exchange stops.
pub(crate) fn stop(rt: &impl Print, stop: Option<usize>) -> io::Result<()> {
    match stop {
        None => write(rt, b"out"),
        Some(k) => natural(rt, k as u64),
    }
}

fn refused(rt: &impl Print, refusal: Refusal) -> io::Result<()> {
    write(rt, b"refused ")?;
    natural(rt, refusal.number() as u64)
}
