// Text put into a lent buffer at a place: bytes, decimal numbers, and decimal numbers with a sign.
#![tactic(auto)]

ghost use Rattle.std.specs.Prelude.{◌+◌, ◌≤◌, length};
ghost use Rattle.text_out.specs.Text.{Wrote, Puts, PutsDecimal, PutsSigned, minus};

// A text put where there is room.
fn copy(out: &mut [u8], at: usize, s: &[u8]) -> usize
    requires { at + length s.now ≤ length out.old }
    ensures { Wrote out.old out.new at result s.now }
{
    let end = at + s.len();
    out[at..end].copy_from_slice(s);
    end
}

pub fn put(out: &mut [u8], at: usize, s: &[u8]) -> Option<usize>
    ensures { Puts out.old out.new at s.now result }
{
    if at > out.len() {
        return None;
    }
    if s.len() > out.len() - at {
        return None;
    }
    Some(copy(out, at, s))
}

pub fn decimal(out: &mut [u8], at: usize, n: u64) -> Option<usize>
    ensures { PutsDecimal out.old out.new at n result }
{
    let mut digits = [0u8; 20];
    let k = io::decimal(n, &mut digits);
    put(out, at, &digits[..k])
}

pub fn signed(out: &mut [u8], at: usize, n: i64) -> Option<usize>
    ensures { PutsSigned out.old out.new at n result }
{
    if n >= 0 {
        return decimal(out, at, n as u64);
    }
    // -1 - n never overflows, and is one less than the number without its sign
    below_zero(out, at, (-1 - n) as u64)
}

// A minus sign and one more than n.
fn below_zero(out: &mut [u8], at: usize, n: u64) -> Option<usize>
    requires { n + 1 ≤ 9223372036854775808 }
    ensures { Puts out.old out.new at (minus (n + 1)) result }
{
    let mut digits = [0u8; 20];
    let k = io::decimal(n + 1, &mut digits);
    let mut text = [45u8; 21];
    let e = copy(&mut text, 1, &digits[..k]);
    put(out, at, &text[..e])
}
