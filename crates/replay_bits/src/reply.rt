// What there is to say to a question, and how it is written.
use refusal::Refusal;
use std::io;

#[derive(Clone, Copy)]
pub(crate) enum Reply {
    Nothing,
    Nobody,
    Natural(u64),
    Two(u64, u64),
    Refused(Refusal),
}

impl Reply {
    pub(crate) fn is_something(self) -> bool {
        match self {
            Reply::Nothing => false,
            Reply::Nobody => true,
            Reply::Natural(_) => true,
            Reply::Two(_, _) => true,
            Reply::Refused(_) => true,
        }
    }
}

pub(crate) fn yes_or_no(t: bool) -> Reply {
    if t {
        return Reply::Natural(1);
    }
    Reply::Natural(0)
}

// The number as a byte; 255 where it is larger.
pub(crate) fn byte(n: u64) -> u8 {
    if n > 255 {
        return 255;
    }
    n as u8
}

// The answer as a line of standard output.
pub(crate) fn print(rt: &impl Print, reply: Reply) -> io::Result<()> {
    let said = match reply {
        Reply::Nothing => write(rt, b""),
        Reply::Nobody => write(rt, b"none"),
        Reply::Natural(n) => natural(rt, n),
        Reply::Two(a, b) => two(rt, a, b),
        Reply::Refused(r) => refused(rt, r.number()),
    };
    said?;
    write(rt, b"\n")
}

fn write(rt: &impl Print, text: &[u8]) -> io::Result<()> {
    rt.write_all(text)
}

fn natural(rt: &impl Print, n: u64) -> io::Result<()> {
    rt.print(n)
}

fn two(rt: &impl Print, a: u64, b: u64) -> io::Result<()> {
    natural(rt, a)?;
    write(rt, b" ")?;
    natural(rt, b)
}

fn refused(rt: &impl Print, number: u8) -> io::Result<()> {
    write(rt, b"refused ")?;
    natural(rt, number as u64)
}
