// What there is to say to a question, and how it is written.
use refusal::Refusal;
use score_verdict::Verdict;
use std::io;

#[derive(Clone, Copy)]
pub(crate) enum Reply {
    Nothing,
    Score(i16),
    Word(Option<Verdict>),
    Refused(Refusal),
}

// The answer as a line of standard output.
pub(crate) fn print(rt: &impl Print, reply: Reply) -> io::Result<()> {
    let said = match reply {
        Reply::Nothing => write(rt, b""),
        Reply::Score(z) => score(rt, z),
        Reply::Word(verdict) => word(rt, verdict),
        Reply::Refused(r) => refused(rt, r),
    };
    said?;
    write(rt, b"\n")
}

fn write(rt: &impl Print, text: &[u8]) -> io::Result<()> {
    rt.write_all(text)
}

fn natural(rt: &impl Print, n: u64) -> io::Result<()> {
    rt.print(n)
}

fn score(rt: &impl Print, z: i16) -> io::Result<()> {
    if z >= 0 {
        return natural(rt, z as u64);
    }
    write(rt, b"-")?;
    // -1 - z never overflows, and is one less than the number without its sign
    natural(rt, (-1 - z) as u64 + 1)
}

fn word(rt: &impl Print, verdict: Option<Verdict>) -> io::Result<()> {
    match verdict {
        Some(Verdict::Lost) => write(rt, b"lost"),
        Some(Verdict::Won) => write(rt, b"won"),
        Some(Verdict::Drawn) => write(rt, b"drawn"),
        None => write(rt, b"none"),
    }
}

// SCORE has a word of its own, as in the ledger's rows. A square stands after the number.
fn refused(rt: &impl Print, refusal: Refusal) -> io::Result<()> {
    if let Refusal::Score = refusal {
        return write(rt, b"over");
    }
    write(rt, b"refused ")?;
    natural(rt, refusal.number() as u64)?;
    if let Some(square) = refusal.square() {
        write(rt, b" ")?;
        natural(rt, square as u64)?;
    }
    Ok(())
}
