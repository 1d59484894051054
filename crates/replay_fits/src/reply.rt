// What there is to say to a question, and how it is written.
use refusal::Refusal;
use std::io;

#[derive(Clone, Copy)]
pub(crate) enum Reply {
    Done,
    Refused(Refusal),
    Number(u64),
    Double(f64),
    Doubles(f64, f64),
}

// The answer as a line of standard output.
pub(crate) fn print(rt: &impl Print, reply: Reply) -> io::Result<()> {
    let said = match reply {
        Reply::Done => write(rt, b"done"),
        Reply::Refused(r) => refused(rt, r),
        Reply::Number(n) => natural(rt, n),
        Reply::Double(x) => bits(rt, x),
        Reply::Doubles(x, y) => both(rt, x, y),
    };
    said?;
    write(rt, b"\n")
}

fn write(rt: &impl Print, text: &[u8]) -> io::Result<()> {
    rt.write_all(text)
}

fn natural(rt: &impl Print, n: u64) -> io::Result<()> {
    rt.print(n)
}

fn refused(rt: &impl Print, r: Refusal) -> io::Result<()> {
    write(rt, b"refused ")?;
    natural(rt, r.number() as u64)
}

fn both(rt: &impl Print, x: f64, y: f64) -> io::Result<()> {
    bits(rt, x)?;
    write(rt, b" ")?;
    bits(rt, y)
}

// The bits of a double, but a NaN has many.
fn bits(rt: &impl Print, x: f64) -> io::Result<()> {
    if x != x {
        return write(rt, b"nan");
    }
    natural(rt, f64::to_bits(x))
}
