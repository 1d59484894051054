// Ledgers of parts of a collection, joined: a machine over bytes. The bytes of a part go in, any number at a time, and its rows come out
// with the numbers that they have in the whole; then the next part, and at the end of all the totals.
#![tactic(auto)]

ghost use Rattle.std.specs.Prelude.{◌≡◌, ◌+◌, ◌^◌, ◌<◌, ◌≤◌, length, [], ◌∷◌, ◌++◌};
ghost use Rattle.text_out.specs.Text.{Adds};
ghost use Rattle.line_cut.specs.Lines.{ends};
ghost use Rattle.ledger_join.specs.Machine.{holds_more, halted as Machine·halted, after_row};
ghost use Rattle.ledger_join.specs.Promises.{StartsJoin, FeedsPart, TurnsPart, EndsJoin, ClosesRow, RowReady, HoldsByte, TakesByte, is_fresh, plain_at, PlainReady, TakesPlain, SomeReady, TakesSome, KeepsNumber, is_next, TakesBytes, counts_fit, is_ample, fit_of, next_part, both_of, is_between};
ghost use Rattle.ledger_joined_row.specs.declared.Kind.TheVariants as K;

use ledger_feed::Unwritten;
use ledger_joined_row::Kind;
use ledger_plain_row::PlainRow;
use refusal::Refusal;

// The bytes that the row buffer has: no totals are longer.
pub const ROW: usize = 84;

// The room that a row takes at most, with any number.
const ROOM: usize = 64;

// The bytes of a number.
const DIGITS: usize = 20;

const MOST: u64 = 0xffff_ffff_ffff_ffff;

// The part that is read, from 1; the loaded and refused rows of all parts so far, and those of this one; how many bytes of an unfinished row are
// held; whether the part's totals are read, and whether it was found to be no ledger.
#[derive(Clone, Copy)]
pub struct Joining {
    pub part: u64,
    pub loads: u64,
    pub refusals: u64,
    pub loaded: u64,
    pub refused: u64,
    pub held: usize,
    pub ended: bool,
    pub stopped: bool,
}

// Why the parts don't go on: one is no ledger, by its number and the row's; there is too little room; or counts would pass 64 bits.
#[derive(Clone, Copy)]
pub enum Unjoined {
    NoLedger(u64, u64),
    Full,
    Many,
}

// The state after a byte or a row, and the place after what was written.
#[derive(Clone, Copy)]
pub struct ByteTaken {
    pub state: Joining,
    pub end: usize,
}

// The same after so many bytes.
#[derive(Clone, Copy)]
pub struct SomeTaken {
    pub state: Joining,
    pub end: usize,
    pub passed: usize,
}

// Before anything was read.
pub fn start() -> Joining
    ensures { StartsJoin result }
{
    Joining {
        part: 1,
        loads: 0,
        refusals: 0,
        loaded: 0,
        refused: 0,
        held: 0,
        ended: false,
        stopped: false,
    }
}

fn hold_more(s: Joining) -> Joining
    requires { s.held < 84 }
    ensures { result ≡ holds_more s }
{
    Joining {
        part: s.part,
        loads: s.loads,
        refusals: s.refusals,
        loaded: s.loaded,
        refused: s.refused,
        held: s.held + 1,
        ended: s.ended,
        stopped: s.stopped,
    }
}

fn halted(s: Joining) -> Joining
    ensures { result ≡ Machine·halted s }
{
    Joining {
        part: s.part,
        loads: s.loads,
        refusals: s.refusals,
        loaded: s.loaded,
        refused: s.refused,
        held: 0,
        ended: s.ended,
        stopped: true,
    }
}

fn one_loaded(s: Joining) -> Joining
    requires { (s.loads + 1 < 2 ^ 64) × (s.loaded + 1 < 2 ^ 64) }
    ensures { result ≡ after_row s K.Loaded }
{
    Joining {
        part: s.part,
        loads: s.loads + 1,
        refusals: s.refusals,
        loaded: s.loaded + 1,
        refused: s.refused,
        held: 0,
        ended: s.ended,
        stopped: s.stopped,
    }
}

fn one_refused(s: Joining) -> Joining
    requires { (s.refusals + 1 < 2 ^ 64) × (s.refused + 1 < 2 ^ 64) }
    ensures { result ≡ after_row s K.Refused }
{
    Joining {
        part: s.part,
        loads: s.loads,
        refusals: s.refusals + 1,
        loaded: s.loaded,
        refused: s.refused + 1,
        held: 0,
        ended: s.ended,
        stopped: s.stopped,
    }
}

fn totals_read(s: Joining) -> Joining
    ensures { result ≡ after_row s K.Totals }
{
    Joining {
        part: s.part,
        loads: s.loads,
        refusals: s.refusals,
        loaded: s.loaded,
        refused: s.refused,
        held: 0,
        ended: true,
        stopped: s.stopped,
    }
}

fn after_row(s: Joining, kind: Kind) -> Joining
    requires { (s.loads + s.refusals + 1 < 2 ^ 64) × (s.loaded + s.refused + 1 < 2 ^ 64) }
    ensures { result ≡ after_row s kind }
{
    match kind {
        Kind::Loaded => one_loaded(s),
        Kind::Refused => one_refused(s),
        Kind::Totals => totals_read(s),
        Kind::Neither => halted(s),
    }
}

// A row that has ended: the first bytes of the buffer.
fn close_row(s: Joining, row: &[u8], out: &mut [u8], at: usize) -> ByteTaken
    requires { RowReady s out.old at 1 × (s.held ≤ length row.now) }
    ensures { ClosesRow s row.now out.old at result out.new }
{
    let held = s.held;
    let taken = ledger_joined_row::take(
        &row[..held],
        s.loaded + s.refused + 1,
        s.loads + s.refusals + 1,
        s.loaded,
        s.refused,
        out,
        at,
    );
    let placed = taken.placed;
    let kind = taken.kind;
    ByteTaken {
        state: after_row(s, kind),
        end: placed.unwrap_or(at),
    }
}

fn stay(state: Joining, end: usize) -> ByteTaken
    ensures { result ≡ record { state = state; end = end } }
{
    ByteTaken { state, end }
}

fn byte_held(s: Joining, row: &mut [u8], byte: u8, out: &mut [u8], at: usize) -> ByteTaken
    requires { RowReady s out.old at (ends (byte ∷ [])) × (length row.old ≡ 84) × (s.held < 84) }
    ensures { HoldsByte s row.old out.old byte at result row.new out.new }
{
    let held = s.held;
    row[held] = byte;
    let next = hold_more(s);
    if byte == b'\n' {
        return close_row(next, row, out, at);
    }
    stay(next, at)
}

// One byte of a part.
fn take_byte(s: Joining, row: &mut [u8], byte: u8, out: &mut [u8], at: usize) -> ByteTaken
    requires { RowReady s out.old at (ends (byte ∷ [])) × (length row.old ≡ 84) }
    ensures { TakesByte s row.old out.old byte at result row.new out.new }
{
    if s.stopped {
        return stay(s, at);
    }
    if s.ended {
        return stay(halted(s), at);
    }
    if s.held >= ROW {
        return stay(halted(s), at);
    }
    byte_held(s, row, byte, out, at)
}

// A row may begin here, and has a number of 64 bits.
fn fresh(s: Joining) -> bool
    requires { s.loaded + s.refused < 2 ^ 64 }
    ensures { result ≡ is_fresh s }
{
    both(
        s.held == 0,
        both(!s.ended, both(!s.stopped, s.loaded + s.refused < MOST)),
    )
}

fn told(s: Joining, chunk: &[u8]) -> PlainRow
    requires { s.loaded + s.refused < 2 ^ 64 }
    ensures { result ≡ plain_at s chunk.now }
{
    if !fresh(s) {
        return PlainRow { front: 0, size: 0 };
    }
    ledger_plain_row::tell(chunk, s.loaded + s.refused + 1)
}

fn put_both(out: &mut [u8], at: usize, whole: &[u8], rest: &[u8]) -> usize
    requires { at + (length whole.now + length rest.now) ≤ length out.old }
    ensures { Adds out.old at (whole.now ++ rest.now) out.new result }
{
    let end = text_out::put(out, at, whole).unwrap_or(at);
    text_out::put(out, end, rest).unwrap_or(end)
}

// A loaded line's row, with its number in the whole, and kept as every row is.
fn take_row(
    s: Joining,
    row: &mut [u8],
    text: &[u8],
    front: usize,
    whole: &[u8],
    out: &mut [u8],
    at: usize,
) -> ByteTaken
    requires { PlainReady s row.old text.now whole.now out.old front at }
    ensures { TakesPlain s row.old text.now whole.now out.old front at result row.new out.new }
{
    text_out::put(row, 0, text);
    let end = put_both(out, at, whole, &text[front..]);
    let state = one_loaded(s);
    ByteTaken { state, end }
}

// A row that is told at once, or one byte.
fn take_some(
    s: Joining,
    row: &mut [u8],
    chunk: &[u8],
    whole: &[u8],
    out: &mut [u8],
    at: usize,
) -> SomeTaken
    requires { SomeReady s row.old chunk.now whole.now out.old at }
    ensures { TakesSome s row.old chunk.now out.old at result row.new out.new }
{
    let r = told(s, chunk);
    let n = r.size;
    let front = r.front;
    if n == 0 {
        let one = take_byte(s, row, chunk[0], out, at);
        let next = one.state;
        return SomeTaken {
            state: next,
            end: one.end,
            passed: 1,
        };
    }
    let all = take_row(s, row, &chunk[..n], front, whole, out, at);
    let next = all.state;
    SomeTaken {
        state: next,
        end: all.end,
        passed: n,
    }
}

// The number of the next row in the whole, after n of them: how many bytes it has.
fn spell(text: &mut [u8], n: u64) -> usize
    requires { length text.old ≡ 20 }
    ensures { KeepsNumber text.new result n }
{
    if n == MOST {
        return 0;
    }
    text_out::decimal(text, 0, n + 1).unwrap_or(0)
}

// One more, and no digit but the last changes.
fn is_next(text: &[u8], k: usize, from: u64, to: u64) -> bool
    requires { k ≤ length text.now }
    ensures { result ≡ is_next text.now k from to }
{
    if k == 0 {
        return false;
    }
    if to <= from {
        return false;
    }
    if to - from > 1 {
        return false;
    }
    text[k - 1] < b'9'
}

// The number as it was kept, counted on.
fn count_on(text: &mut [u8], k: usize, from: u64, to: u64) -> usize
    requires { KeepsNumber text.old k from }
    ensures { KeepsNumber text.new result to }
{
    if to == from {
        return k;
    }
    if is_next(text, k, from, to) {
        let last = k - 1;
        let digit = text[last];
        text[last] = digit + 1;
        return k;
    }
    spell(text, to)
}

// The rows of a chunk, where there is room for them: the number in the whole is kept from one to the next.
fn take_rows(
    s: Joining,
    row: &mut [u8],
    chunk: &[u8],
    out: &mut [u8],
    text: &mut [u8],
) -> Result<(Joining, usize), Unwritten>
    requires { RowReady s out.old 0 (ends chunk.now) × (length row.old ≡ 84) × (length text.old ≡ 20) }
    ensures { TakesBytes s row.old chunk.now out.old result row.new out.new }
{
    let mut state = s;
    let mut wrote = 0;
    let mut i = 0;
    let mut k = spell(text, s.loads + s.refusals);
    // A loop by hand: `i` moves on by as many bytes as are taken at once.
    while i < chunk.len() {
        let before = state.loads + state.refusals;
        let taken = take_some(state, row, &chunk[i..], &text[..k], out, wrote);
        let next = taken.state;
        state = next;
        wrote = taken.end;
        i += taken.passed;
        k = count_on(text, k, before, next.loads + next.refusals);
    }
    Ok((state, wrote))
}

fn take_bytes(
    s: Joining,
    row: &mut [u8],
    chunk: &[u8],
    out: &mut [u8],
) -> Result<(Joining, usize), Unwritten>
    requires { RowReady s out.old 0 (ends chunk.now) × (length row.old ≡ 84) }
    ensures { TakesBytes s row.old chunk.now out.old result row.new out.new }
{
    let mut text = [0u8; DIGITS];
    take_rows(s, row, chunk, out, &mut text)
}

fn both(a: bool, b: bool) -> bool
    ensures { result ≡ both_of a b }
{
    if a {
        return b;
    }
    false
}

fn counts_fit(s: Joining, more: usize) -> bool
    ensures { result ≡ counts_fit s more }
{
    both(
        ledger_feed::countable(s.loads, s.refusals, more),
        ledger_feed::countable(s.loaded, s.refused, more),
    )
}

// There is room and a number for a row at every byte: the rows need not be counted.
fn ample(s: Joining, bytes: usize, room: usize) -> bool
    ensures { result ≡ is_ample s bytes room }
{
    if room / ROOM < bytes {
        return false;
    }
    counts_fit(s, bytes)
}

// Whether the rows of a chunk are taken: there is room and a number for each, or not.
#[derive(Clone, Copy)]
enum Fit {
    Takes,
    Full,
    Many,
}

fn fitting(s: Joining, chunk: &[u8], room: usize) -> Fit
    ensures { result ≡ fit_of s chunk.now room }
{
    if ample(s, chunk.len(), room) {
        return Fit::Takes;
    }
    let ends = line_cut::ends(chunk);
    if !counts_fit(s, ends) {
        return Fit::Many;
    }
    if room / ROOM < ends {
        return Fit::Full;
    }
    Fit::Takes
}

// Takes a chunk of a part, of any size: a row for each one that ends in it. It needs 64 bytes of room for each of them. The state after it, and how many
// bytes of rows were written; or why nothing has changed.
pub fn feed(
    state: Joining,
    row: &mut [u8],
    chunk: &[u8],
    out: &mut [u8],
) -> Result<(Joining, usize), Unwritten>
    ensures { FeedsPart state row.old chunk.now out.old result row.new out.new }
{
    if row.len() != ROW {
        return Err(Unwritten::Refused(Refusal::Shape));
    }
    match fitting(state, chunk, out.len()) {
        Fit::Takes => take_bytes(state, row, chunk, out),
        Fit::Full => Err(Unwritten::Full),
        Fit::Many => Err(Unwritten::Many),
    }
}

fn next_one(s: Joining) -> Joining
    requires { s.part + 1 < 2 ^ 64 }
    ensures { result ≡ next_part s }
{
    Joining {
        part: s.part + 1,
        loads: s.loads,
        refusals: s.refusals,
        loaded: 0,
        refused: 0,
        held: 0,
        ended: false,
        stopped: false,
    }
}

// The end of a part: its totals are read, and nothing followed them. The state before the next part.
pub fn next_part(state: Joining) -> Result<Joining, Unjoined>
    ensures { TurnsPart state result }
{
    if state.part == MOST {
        return Err(Unjoined::Many);
    }
    if !ledger_feed::countable(state.loaded, state.refused, 1) {
        return Err(Unjoined::Many);
    }
    if both(state.ended, !state.stopped) {
        return Ok(next_one(state));
    }
    Err(Unjoined::NoLedger(state.part, state.loaded + state.refused + 1))
}

// Between two parts.
fn between(s: Joining) -> bool
    ensures { result ≡ is_between s }
{
    both(
        s.loaded == 0,
        both(
            s.refused == 0,
            both(s.held == 0, both(!s.ended, !s.stopped)),
        ),
    )
}

// The end of all parts: the totals of the whole, and how many bytes they have.
pub fn finish(state: Joining, out: &mut [u8]) -> Result<usize, Unjoined>
    ensures { EndsJoin state out.old result out.new }
{
    if !counts_fit(state, 1) {
        return Err(Unjoined::Many);
    }
    if !between(state) {
        return Err(Unjoined::NoLedger(state.part, state.loaded + state.refused + 1));
    }
    if out.len() < ROW {
        return Err(Unjoined::Full);
    }
    let lines = state.loads + state.refusals;
    let placed = ledger_totals::last(lines, state.loads, state.refusals, out, 0);
    Ok(placed.unwrap_or(0))
}
