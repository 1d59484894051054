// A question of the oracle taken apart: its word, its numbers and its position (oracle/README.md). Total, and no door.
#![tactic(auto)]

ghost use Rattle.std.specs.Prelude.{◌≡◌, ◌≤◌};
ghost use Rattle.replay_question.specs.Question.{grown, with_digit, digits, negative_bits, leading_number};
ghost use Rattle.replay_question.specs.Promises.{GivesWord, GivesNumbers, GivesPosition};

use text_in::inner::{find, text_after, text_before};

// How many numbers a question has at most.
pub const NUMBERS: usize = 5;

// The largest number of 64 bits.
const LARGEST: u64 = 18446744073709551615;

// One more digit; a number that would pass 64 bits stays as it is.
fn grown(n: u64, digit: u64) -> u64
    requires { digit ≤ 9 }
    ensures { result ≡ grown n digit }
{
    if n <= (LARGEST - digit) / 10 {
        return n * 10 + digit;
    }
    n
}

fn with_digit(n: u64, b: u8) -> u64
    ensures { result ≡ with_digit n b }
{
    if b < b'0' {
        return n;
    }
    if b > b'9' {
        return n;
    }
    grown(n, (b - b'0') as u64)
}

fn digits(s: &[u8]) -> u64
    ensures { result ≡ digits 0 s.now }
{
    let mut n: u64 = 0;
    for b in s {
        n = with_digit(n, *b);
    }
    n
}

// A number below zero stands as its 64 bits.
fn turned(n: u64) -> u64
    ensures { result ≡ negative_bits n }
{
    if n == 0 {
        return 0;
    }
    LARGEST - n + 1
}

// The number that a text begins with.
fn number(s: &[u8]) -> u64
    ensures { result ≡ leading_number s.now }
{
    let n = digits(text_before(s, b' '));
    if find(s, b'-') == 0 {
        return turned(n);
    }
    n
}

// The numbers of a question, in order; where there is none, 0.
pub fn numbers(question: &[u8]) -> [u64; NUMBERS]
    ensures { GivesNumbers question.now result }
{
    let a = text_after(question, b' ');
    let b = text_after(a, b' ');
    let c = text_after(b, b' ');
    let d = text_after(c, b' ');
    let e = text_after(d, b' ');
    [number(a), number(b), number(c), number(d), number(e)]
}

// What comes before the first space.
pub fn word(question: &[u8]) -> &[u8]
    ensures { GivesWord question.now result.now }
{
    text_before(question, b' ')
}

// The part that the first slash stands in, with all that follows: a question's position, if it has one.
pub fn position(question: &[u8]) -> &[u8]
    ensures { GivesPosition question.now result.now }
{
    let mut part = question;
    for (i, b) in question.iter().enumerate() {
        if *b == b'/' {
            return part;
        }
        if *b == b' ' {
            part = &question[i + 1..];
        }
    }
    part
}
