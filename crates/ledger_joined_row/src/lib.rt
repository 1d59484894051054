// A row of a ledger that is joined to others: what it is in its place, and the row with its number in the whole. No door.
#![tactic(auto)]

ghost use Rattle.std.specs.Prelude.{◌≡◌, ◌+◌, ◌-◌, ◌≤◌, length};
ghost use Rattle.text_out.specs.Text.{Adds, decimal_of};
ghost use Rattle.ledger_row.specs.Row.{spaced as Row·spaced};
ghost use Rattle.ledger_totals.specs.Totals.{last_row};
ghost use Rattle.ledger_whole.specs.Whole.{ends_in_lf};
ghost use Rattle.ledger_joined_row.specs.Rows.{begins_with as Rows·begins, digit_added, comes_to, spells as Rows·spells, is_number, is_score, is_word, is_shown, says_refused, says_loaded, has_half};
ghost use Rattle.ledger_joined_row.specs.Promises.{front_of, rest_kind, row_kind, IsTotals, one_of_three, one_of_two, row_is_rule, renumbered, is_line, TakesRow};

// The bytes of a row of a line at most, of the totals, of a number, of a number and its space, and of a row with any other number.
const ROW: usize = 32;

const TOTALS: usize = 84;

const DIGITS: usize = 20;

const NUMBER: usize = 21;

const LONGEST: usize = 64;

// From here on no further digit is taken: no score and no refusal's number is as large.
const MANY_DIGITS: u64 = 100_000;

// What a row is in the place where it stands.
#[derive(Clone, Copy)]
pub enum Kind {
    Loaded,
    Refused,
    Totals,
    Neither,
}

// What a row is, and the place after what was written of it, or that there was no room.
#[derive(Clone, Copy)]
pub struct TakenRow {
    pub kind: Kind,
    pub placed: Option<usize>,
}

fn begins(row: &[u8], front: &[u8]) -> bool
    ensures { result ≡ Rows·begins front.now row.now }
{
    let n = front.len();
    if row.len() < n {
        return false;
    }
    text_in::inner::is(&row[..n], front)
}

// A number and the space after it.
fn spaced(out: &mut [u8], at: usize, n: u64) -> usize
    requires { at + 21 ≤ length out.old }
    ensures { Adds out.old at (Row·spaced n) out.new result }
{
    let end = text_out::decimal(out, at, n).unwrap_or(at);
    text_out::put(out, end, b" ").unwrap_or(end)
}

// How long the number and its space are, where the row begins with them; else 0.
fn front(row: &[u8], number: u64) -> usize
    ensures { result ≡ front_of number row.now }
{
    let mut text = [0u8; NUMBER];
    let n = spaced(&mut text, 0, number);
    if begins(row, &text[..n]) {
        return n;
    }
    0
}

fn digit(b: u8) -> u64
    ensures { result ≡ b - 48 }
{
    if b < b'0' {
        return 0;
    }
    (b - b'0') as u64
}

fn with_digit(n: u64, b: u8) -> u64
    ensures { result ≡ digit_added n b }
{
    if n < MANY_DIGITS {
        return n * 10 + digit(b);
    }
    n
}

// What the digits of a text come to, so far as a row's numbers go.
fn comes_to(s: &[u8]) -> u64
    ensures { result ≡ comes_to 0 s.now }
{
    let mut n = 0;
    for b in s {
        n = with_digit(n, *b);
    }
    n
}

fn write_number(out: &mut [u8], n: u64) -> usize
    requires { 20 ≤ length out.old }
    ensures { Adds out.old 0 (decimal_of n) out.new result }
{
    text_out::decimal(out, 0, n).unwrap_or(0)
}

fn spells(s: &[u8], n: u64) -> bool
    ensures { result ≡ Rows·spells s.now n }
{
    let mut text = [0u8; DIGITS];
    let k = write_number(&mut text, n);
    text_in::inner::is(s, &text[..k])
}

// A number within two bounds, as it is spelled.
fn is_number(s: &[u8], least: u64, most: u64) -> bool
    ensures { result ≡ is_number least most s.now }
{
    let n = comes_to(s);
    if n < least {
        return false;
    }
    if n > most {
        return false;
    }
    spells(s, n)
}

fn is_score(s: &[u8]) -> bool
    ensures { result ≡ is_score s.now }
{
    if begins(s, b"-") {
        return is_number(&s[1..], 1, 32768);
    }
    is_number(s, 0, 32767)
}

fn any(a: bool, b: bool, c: bool) -> bool
    ensures { result ≡ one_of_three a b c }
{
    if a {
        return true;
    }
    if b {
        return true;
    }
    c
}

fn either(a: bool, b: bool) -> bool
    ensures { result ≡ one_of_two a b }
{
    if a {
        return true;
    }
    b
}

fn is_word(s: &[u8]) -> bool
    ensures { result ≡ is_word s.now }
{
    any(
        text_in::inner::is(s, b"won"),
        text_in::inner::is(s, b"lost"),
        either(
            text_in::inner::is(s, b"drawn"),
            text_in::inner::is(s, b"over"),
        ),
    )
}

fn is_shown(s: &[u8]) -> bool
    ensures { result ≡ is_shown s.now }
{
    if is_word(s) {
        return true;
    }
    is_score(s)
}

// Half points and a space.
fn has_half(rest: &[u8]) -> bool
    ensures { result ≡ has_half rest.now }
{
    any(
        begins(rest, b"0 "),
        begins(rest, b"1 "),
        begins(rest, b"2 "),
    )
}

fn says_refused(rest: &[u8]) -> bool
    ensures { result ≡ says_refused rest.now }
{
    if begins(rest, b"refused ") {
        return is_number(&rest[8..], 1, 99);
    }
    false
}

fn says_loaded(rest: &[u8]) -> bool
    ensures { result ≡ says_loaded rest.now }
{
    if has_half(rest) {
        return is_shown(&rest[2..]);
    }
    false
}

fn ends_in_lf(row: &[u8]) -> bool
    ensures { result ≡ ends_in_lf row.now }
{
    let n = row.len();
    if n == 0 {
        return false;
    }
    row[n - 1] == b'\n'
}

// What follows the number.
fn rest_kind(rest: &[u8]) -> Kind
    ensures { result ≡ rest_kind rest.now }
{
    if says_refused(rest) {
        return Kind::Refused;
    }
    if says_loaded(rest) {
        return Kind::Loaded;
    }
    Kind::Neither
}

// A row of a line, by its number.
fn row_kind(row: &[u8], number: u64) -> Kind
    ensures { result ≡ row_kind number row.now }
{
    if row.len() > ROW {
        return Kind::Neither;
    }
    if !ends_in_lf(row) {
        return Kind::Neither;
    }
    let n = front(row, number);
    if n == 0 {
        return Kind::Neither;
    }
    if n >= row.len() {
        return Kind::Neither;
    }
    let said = &row[..row.len() - 1];
    rest_kind(&said[n..])
}

fn write_totals(out: &mut [u8], lines: u64, loaded: u64, refused: u64) -> usize
    requires { 84 ≤ length out.old }
    ensures { Adds out.old 0 (last_row lines loaded refused) out.new result }
{
    ledger_totals::last(lines, loaded, refused, out, 0).unwrap_or(0)
}

fn is_totals(row: &[u8], lines: u64, loaded: u64, refused: u64) -> bool
    ensures { IsTotals lines loaded refused row.now result }
{
    let mut text = [0u8; TOTALS];
    let n = write_totals(&mut text, lines, loaded, refused);
    text_in::inner::is(row, &text[..n])
}

fn is_line(k: Kind) -> bool
    ensures { result ≡ is_line k }
{
    match k {
        Kind::Loaded => true,
        Kind::Refused => true,
        Kind::Totals => false,
        Kind::Neither => false,
    }
}

// The number of the row before.
fn one_less(number: u64) -> u64
    ensures { result ≡ number - 1 }
{
    if number == 0 {
        return 0;
    }
    number - 1
}

fn sort(row: &[u8], number: u64, loaded: u64, refused: u64) -> Kind
    ensures { result ≡ row_is_rule number loaded refused row.now }
{
    let kind = row_kind(row, number);
    if is_line(kind) {
        return kind;
    }
    if is_totals(row, one_less(number), loaded, refused) {
        return Kind::Totals;
    }
    Kind::Neither
}

// The row with its number in the whole, where it is the row of a line.
fn renumber(out: &mut [u8], whole: u64, row: &[u8], number: u64) -> usize
    requires { (64 ≤ length out.old) × (length row.now ≤ 32) }
    ensures { Adds out.old 0 (renumbered whole number row.now) out.new result }
{
    let n = front(row, number);
    let end = spaced(out, 0, whole);
    text_out::put(out, end, &row[n..]).unwrap_or(end)
}

// One row of a part: `number` is its own there and `whole` the one that it has in the whole, after so many loaded and refused rows of its
// part. The row of a line is written with its number in the whole, and of any other nothing.
pub fn take(
    row: &[u8],
    number: u64,
    whole: u64,
    loaded: u64,
    refused: u64,
    out: &mut [u8],
    at: usize,
) -> TakenRow
    ensures { TakesRow out.old out.new at number whole loaded refused row.now result }
{
    let kind = sort(row, number, loaded, refused);
    if is_line(kind) {
        let mut text = [0u8; LONGEST];
        let n = renumber(&mut text, whole, row, number);
        let placed = text_out::put(out, at, &text[..n]);
        return TakenRow { kind, placed };
    }
    let placed = text_out::put(out, at, b"");
    TakenRow { kind, placed }
}
