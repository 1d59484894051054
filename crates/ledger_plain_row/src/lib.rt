// The row of a loaded line with a score, at the front of a text: told in one reading, which finds its end too. No door.
#![tactic(auto)]

ghost use Rattle.std.specs.Prelude.{◌≡◌, ◌-◌};
ghost use Rattle.line_tail.specs.Words.{is_figure, starts_with};
ghost use Rattle.ledger_plain_row.specs.Plain.{figures_of, number_in, number_read, sign_in, is_points, score_in, is_half, half_between, is_own, no_row};
ghost use Rattle.ledger_plain_row.specs.Promises.{TellsRow};

// The figures of a number at most, so that it has 64 bits; and the largest score.
const FIGURES: usize = 18;

const LARGEST: u64 = 32767;

// A number at the front of a text: how many bytes it has, and what they come to.
#[derive(Clone, Copy)]
pub struct Number {
    pub size: usize,
    pub value: u64,
}

// A row at the front of a text: how many bytes its number has, and the row. No row has none.
#[derive(Clone, Copy)]
pub struct PlainRow {
    pub front: usize,
    pub size: usize,
}

fn is_figure(b: u8) -> bool
    ensures { result ≡ is_figure b }
{
    if b < b'0' {
        return false;
    }
    b <= b'9'
}

fn digit(b: u8) -> u64
    ensures { result ≡ b - 48 }
{
    if b < b'0' {
        return 0;
    }
    (b - b'0') as u64
}

fn starts(s: &[u8], byte: u8) -> bool
    ensures { result ≡ starts_with byte s.now }
{
    if s.len() == 0 {
        return false;
    }
    s[0] == byte
}

fn figures(s: &[u8]) -> Number
    ensures { result ≡ number_read (figures_of 18 s.now) }
{
    let mut n: u64 = 0;
    for (i, b) in s.iter().enumerate() {
        if i == FIGURES {
            return Number { size: i, value: n };
        }
        if !is_figure(*b) {
            return Number { size: i, value: n };
        }
        n = 10 * n + digit(*b);
    }
    Number {
        size: s.len(),
        value: n,
    }
}

fn read(s: &[u8]) -> Number
    ensures { result ≡ number_read (number_in s.now) }
{
    if starts(s, b'0') {
        return Number { size: 1, value: 0 };
    }
    figures(s)
}

fn sign(s: &[u8]) -> usize
    ensures { result ≡ sign_in s.now }
{
    if starts(s, b'-') { 1 } else { 0 }
}

// A number as that of a score: not 0 behind a sign.
fn is_points(sign: usize, n: Number) -> bool
    ensures { result ≡ is_points sign n }
{
    if n.size == 0 {
        return false;
    }
    if n.value < sign as u64 {
        return false;
    }
    n.value <= LARGEST
}

// A score and LF: how many bytes they have.
fn score(s: &[u8]) -> usize
    ensures { result ≡ score_in s.now }
{
    let k = sign(s);
    let figures = &s[k..];
    let n = read(figures);
    let size = n.size;
    if !is_points(k, n) {
        return 0;
    }
    if !starts(&figures[size..], b'\n') {
        return 0;
    }
    k + size + 1
}

fn is_half(b: u8) -> bool
    ensures { result ≡ is_half b }
{
    if b < b'0' {
        return false;
    }
    b <= b'2'
}

// Half points between two spaces.
fn half(s: &[u8]) -> bool
    ensures { result ≡ half_between s.now }
{
    if s.len() < 3 {
        return false;
    }
    if s[0] != b' ' {
        return false;
    }
    if !is_half(s[1]) {
        return false;
    }
    s[2] == b' '
}

fn is_own(number: u64, n: Number) -> bool
    ensures { result ≡ is_own number n }
{
    if n.size == 0 {
        return false;
    }
    n.value == number
}

fn none() -> PlainRow
    ensures { result ≡ no_row }
{
    PlainRow { front: 0, size: 0 }
}

// The row of a line with this number.
pub fn tell(s: &[u8], number: u64) -> PlainRow
    ensures { TellsRow number s.now result }
{
    let own = read(s);
    let front = own.size;
    if !is_own(number, own) {
        return none();
    }
    let said = &s[front..];
    if !half(said) {
        return none();
    }
    let shown = score(&said[3..]);
    if shown == 0 {
        return none();
    }
    PlainRow {
        front,
        size: front + 3 + shown,
    }
}
