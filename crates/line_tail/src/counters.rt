// A counter as a word: decimal, without leading zeros.
ghost use Rattle.std.specs.Prelude.{◌≡◌, cond, ◌≤◌, length};
ghost use Rattle.text_in.specs.Text.{every};
ghost use Rattle.line_tail.specs.Words.{counter_of, counter_or, is_figure, decimal_from};

use position_further::inner::MOST;

// What is no counter, and the most figures of one.
const NO_COUNTER: u16 = MOST + 1;

const FIGURES: usize = 4;

fn wide(b: u8) -> u16
    ensures { result ≡ b }
{
    b as u16
}

// The number that up to four figures make; no counter where a byte is no figure.
fn figures(s: &[u8]) -> u16
    requires { length s.now ≤ 4 }
    ensures { result ≡ cond (every is_figure s.now) (decimal_from 0 s.now) 10000 }
{
    let mut n: u16 = 0;
    for b in s {
        if *b < b'0' {
            return NO_COUNTER;
        }
        if *b > b'9' {
            return NO_COUNTER;
        }
        n = 10 * n + wide(*b - b'0');
    }
    n
}

fn counter(s: &[u8]) -> u16
    ensures { result ≡ counter_of s.now }
{
    if s.len() == 0 {
        return NO_COUNTER;
    }
    if s.len() > FIGURES {
        return NO_COUNTER;
    }
    if s.len() == 1 {
        return figures(s);
    }
    if s[0] == b'0' {
        return NO_COUNTER;
    }
    figures(s)
}

// The counter, or what one that is not given reads as.
pub(crate) fn counter_or(s: &[u8], otherwise: u16) -> u16
    ensures { result ≡ counter_or otherwise s.now }
{
    if s.len() == 0 {
        return otherwise;
    }
    counter(s)
}
