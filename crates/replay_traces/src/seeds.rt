// Weights and traces from a seed, by the rule in oracle/README.md, "Seeds".
ghost use Rattle.std.specs.Prelude.{◌<◌};

use chess::piece::Piece;
use trace_counts::{Trace, Weights};

// The numbers of a trace beside its entries, and all of its places.
pub(crate) const NUMBERS: usize = 26;

// Attacked squares of six kinds and two colours, and where they begin among the numbers.
const MOBILITY: usize = Piece::COUNT;

const FIRST_MOBILITY: usize = 12;

pub(crate) const PLACES: usize = 794;

// The weights that have a name.
const NAMED: usize = 11;

// A draw: xorshift64, the state after three shifts and xors.
fn draw(state: u64) -> u64 {
    let a = state ^ (state << 13);
    let b = a ^ (a >> 7);
    b ^ (b << 17)
}

// The bits of entry k of the list of special weights; entry 0 is a NaN.
fn special(k: usize) -> u64
    requires { k < 16 }
{
    let specials: [u64; 16] = [
        0x7FF8000000000000,
        0x7FF0000000000000,
        0xFFF0000000000000,
        0x0000000000000000,
        0x8000000000000000,
        0x0000000000000001,
        0x8000000000000001,
        0x000FFFFFFFFFFFFF,
        0x800FFFFFFFFFFFFF,
        0x0010000000000000,
        0x8010000000000000,
        0x7FEFFFFFFFFFFFFF,
        0xFFEFFFFFFFFFFFFF,
        0x3FF0000000000000,
        0x3FF0000000000001,
        0xBFEFFFFFFFFFFFFF,
    ];
    specials[k]
}

fn is_special(kind: u64, r: u64) -> bool {
    match kind {
        2 => r % 64 == 0,
        5 => r % 256 == 0,
        _ => false,
    }
}

// The exponent field of a kind of weights: so many from the lowest, by eleven bits of the draw.
fn exponent(kind: u64, bits: u64) -> u64 {
    match kind {
        2 => bits % 2047,
        3 => 0,
        4 => 2034 + bits % 4,
        _ => 1019 + bits % 16,
    }
}

fn weight(kind: u64, r: u64) -> f64 {
    if is_special(kind, r) {
        return of_bits(special(((r >> 16) % 16) as usize));
    }
    let exponent = exponent(kind, (r >> 52) & 2047);
    of_bits((r & 0x8000000000000000) | (exponent << 52) | (r & 0x000FFFFFFFFFFFFF))
}

// A double from its bits. No NaN is made from bits: one is as good as another.
fn of_bits(bits: u64) -> f64 {
    if bits % 0x8000000000000000 > 0x7FF0000000000000 {
        return 0.0 / 0.0;
    }
    f64::from_bits(bits)
}

// The eleven named weights are the first eleven draws.
pub(crate) fn weights(kind: u64, seed: u64) -> Weights {
    let mut list = [0.0f64; NAMED];
    squares(kind, seed, &mut list);
    named(&list)
}

fn named(list: &[f64; NAMED]) -> Weights {
    Weights {
        pawn: list[0],
        knight: list[1],
        bishop: list[2],
        rook: list[3],
        queen: list[4],
        bishop_pair: list[5],
        knight_mobility: list[6],
        bishop_mobility: list[7],
        rook_mobility: list[8],
        queen_mobility: list[9],
        tempo: list[10],
    }
}

// The state after eleven draws.
pub(crate) fn after_named(seed: u64) -> u64 {
    let mut state = seed;
    for _ in 0..11 {
        state = draw(state);
    }
    state
}

// Weights, a draw each.
pub(crate) fn squares(kind: u64, from: u64, squares: &mut [f64]) {
    let mut state = from;
    for square in squares.iter_mut() {
        state = draw(state);
        *square = weight(kind, state);
    }
}

// A number of a trace from its draw, by its place.
fn number(place: usize, r: u64) -> i32 {
    match place {
        0..=9 => (r % 65) as i32,
        10..=11 => (r % 2) as i32,
        12..=23 => (r % 1729) as i32,
        24 => side(r),
        _ => (r % 65) as i32,
    }
}

fn side(r: u64) -> i32 {
    if r % 2 == 0 {
        return 1;
    }
    -1
}

// The numbers of a trace, a draw each; the state after them comes back.
pub(crate) fn numbers(seed: u64, numbers: &mut [i32]) -> u64 {
    let mut state = seed;
    for (i, n) in numbers.iter_mut().enumerate() {
        state = draw(state);
        *n = number(i, state);
    }
    state
}

// The entries of a trace: a draw for their sparseness, and a draw each.
pub(crate) fn entries(from: u64, entries: &mut [i32]) {
    let mut state = draw(from);
    let sparse = state % 8;
    for entry in entries.iter_mut() {
        state = draw(state);
        *entry = one(state, sparse);
    }
}

// 1 where two to the power of the sparseness divides the draw.
fn one(r: u64, sparse: u64) -> i32 {
    if bits::scan(r) as u64 >= sparse {
        return 1;
    }
    0
}

// The number at a place, 0 past the end.
fn at(list: &[i32], place: usize) -> i32 {
    if place < list.len() {
        return list[place];
    }
    0
}

// White's number and Black's.
fn both(list: &[i32], white: usize, black: usize) -> [i32; 2] {
    [at(list, white), at(list, black)]
}

fn mobility(list: &[i32]) -> [i32; MOBILITY] {
    let mut mobility = [0i32; MOBILITY];
    for (i, n) in mobility.iter_mut().enumerate() {
        *n = at(list, FIRST_MOBILITY + i);
    }
    mobility
}

// The numbers are in the order in which a trace is listed.
pub(crate) fn trace(numbers: &[i32]) -> Trace {
    Trace {
        pawns: both(numbers, 0, 1),
        knights: both(numbers, 2, 3),
        bishops: both(numbers, 4, 5),
        rooks: both(numbers, 6, 7),
        queens: both(numbers, 8, 9),
        bishop_pair: both(numbers, 10, 11),
        mobility: mobility(numbers),
        side: at(numbers, 24),
        piece_count: at(numbers, 25),
    }
}

// The place of an entry among the entries; past their end where the place is a number's.
pub(crate) fn entry(place: usize) -> usize {
    if place < NUMBERS {
        return PLACES;
    }
    place - NUMBERS
}

pub(crate) fn set(list: &mut [i32], place: usize, value: i32) {
    if place < list.len() {
        list[place] = value;
    }
}

// A value near zero from its 64 bits; 0 where it is farther.
pub(crate) fn value(n: u64) -> i32 {
    if n < 2000 {
        return n as i32;
    }
    let m = 18446744073709551615 - n;
    if m < 2000 {
        return (1999 - m) as i32 - 2000;
    }
    0
}
