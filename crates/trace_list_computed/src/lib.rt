// The trace of a position as a list, straight from the bitboards: its counts by value, its entries lent.
#![tactic(auto)]

ghost use Rattle.std.specs.Prelude.{◌≡◌, true, cond, [], ◌+◌, ◌*◌, ◌<◌, ◌≤◌, T, length};
ghost use Rattle.bits.specs.Bitboard.{has, digit, those};
ghost use Rattle.attack_rays.specs.PrivateMirror.{partner, paired};
ghost use Rattle.trace.specs.Trace.{entries_of};
ghost use Rattle.trace_list.specs.Form.{ones_in, list_bytes};
ghost use Rattle.trace_list_computed.specs.PrivateWalk.{Few, Padded, ones_before, entry_put, put_where, both_put, turned_over, refused_list};
ghost use Rattle.trace_list_computed.specs.Promises.{ComputesList};

use attack::inner::standing;
use chess::color::{BLACK, WHITE};
use chess::kind::{BISHOP, KING, KNIGHT, PAWN, QUEEN, ROOK};
use chess::piece::Piece;
use position::State;
use refusal::Refusal;
use trace_counts::Trace;
use trace_list::{BYTES, ENTRIES, PER_ENTRY};

// A trace, how many entries its list has, and whether the position passed its test: beside a refusal stand a trace of zeros and none.
#[derive(Clone, Copy)]
pub struct ListTraced {
    pub checked: Result<(), Refusal>,
    pub trace: Trace,
    pub used: u8,
}

// The number of a list's last entry.
const LAST_ENTRY: usize = ENTRIES - 1;

// Each square of x changed with its partner n above or below: m has the lower of each two.
fn swapped(x: u64, n: u64, m: u64) -> u64
    requires { (n < 64) × T (paired n m) }
    ensures { result ≡ those 64 (λ k. has x (partner n m k)) }
{
    ((x >> n) & m) | ((x & m) << n)
}

// The board as Black sees it: a rank changes places with the one across.
fn turned(x: u64) -> u64
    ensures { result ≡ turned_over x }
{
    let a = swapped(x, 8, 0x00ff_00ff_00ff_00ff);
    let b = swapped(a, 16, 0x0000_ffff_0000_ffff);
    swapped(b, 32, 0x0000_0000_ffff_ffff)
}

fn stands(pieces: u64, square: u8) -> bool
    requires { square < 64 }
    ensures { result ≡ has pieces square }
{
    (pieces >> square) & 1 != 0
}

fn put(bytes: &mut [u8; BYTES], n: usize, kind: u8, square: u8, color: u8)
    requires { n < 64 }
    ensures { bytes.new ≡ entry_put kind square color n bytes.old }
{
    let at = PER_ENTRY * n;
    bytes[at] = kind;
    bytes[at + 1] = square;
    bytes[at + 2] = color;
}

// The colour of the first piece that a square has.
fn first(white: bool) -> u8
    ensures { result ≡ cond white 0 1 }
{
    if white { WHITE } else { BLACK }
}

// A byte, or 0: a choice, and no jump.
fn chosen(there: bool, byte: u8) -> u8
    ensures { result ≡ cond there byte 0 }
{
    if there { byte } else { 0 }
}

fn one_if(there: bool) -> usize
    ensures { result ≡ digit there }
{
    if there { 1 } else { 0 }
}

// Black's piece on a square that White has too, where there is one; zeros over zeros where there is none.
fn put_second(there: bool, bytes: &mut [u8; BYTES], n: usize, kind: u8, square: u8) -> usize
    requires { (there ≡ true → n < 64) × (n ≤ 64) × Padded n bytes.old }
    ensures { (result ≡ n + digit there) × (bytes.new ≡ put_where there kind square 1 n bytes.old) }
{
    if n > LAST_ENTRY {
        return n;
    }
    put(
        bytes,
        n,
        chosen(there, kind),
        chosen(there, square),
        chosen(there, BLACK),
    );
    n + one_if(there)
}

// The pieces that a square has, White's before Black's: how many entries there are then. There is no jump on a colour, since which stands on a square can't be
// guessed: the first piece is written by a choice of its colour, and the second, or zeros, always.
fn put_both(
    white: bool,
    black: bool,
    bytes: &mut [u8; BYTES],
    n: usize,
    kind: u8,
    square: u8,
) -> usize
    requires { (white ≡ true → n < 64) × (black ≡ true → n + digit white < 64) × Padded n bytes.old }
    ensures { (result ≡ n + digit white + digit black) × (bytes.new ≡ both_put white black kind square n bytes.old) }
{
    if white | black {
        put(bytes, n, kind, square, first(white));
        return put_second(white & black, bytes, n + 1, kind, square);
    }
    n
}

// The pieces of a kind, square by square as the trace has them, White's before Black's: from so many entries on, how many there are then.
fn kind_listed(bitboards: &[u64], kind: u8, used: usize, bytes: &mut [u8; BYTES]) -> usize
    requires { (kind < 6) × Few bitboards.now × (used ≡ length (ones_before bitboards.now (128 * kind))) × (bytes.old ≡ list_bytes (ones_before bitboards.now (128 * kind))) }
    ensures { (result ≡ length (ones_before bitboards.now (128 * kind + 128))) × (bytes.new ≡ list_bytes (ones_before bitboards.now (128 * kind + 128))) }
{
    let white = standing(bitboards, kind, WHITE);
    let black = turned(standing(bitboards, kind, BLACK));
    let mut n = used;
    let mut rest = white | black;
    loop {
        let next = bits::next(rest);
        let Some((s, r)) = next else {
            return n;
        };
        n = put_both(stands(white, s), stands(black, s), bytes, n, kind, s);
        rest = r;
    }
}

fn clear(bytes: &mut [u8; BYTES])
    ensures { bytes.new ≡ list_bytes [] }
{
    *bytes = [0; BYTES];
}

// Kind by kind and no loop over them: so each kind has a loop of its own, whose end is guessed by that kind's.
fn listed(bitboards: &[u64], bytes: &mut [u8; BYTES]) -> usize
    requires { Few bitboards.now × (bytes.old ≡ list_bytes []) }
    ensures { (result ≡ length (ones_in (entries_of bitboards.now))) × (bytes.new ≡ list_bytes (ones_in (entries_of bitboards.now))) }
{
    let pawns = kind_listed(bitboards, PAWN, 0, bytes);
    let knights = kind_listed(bitboards, KNIGHT, pawns, bytes);
    let bishops = kind_listed(bitboards, BISHOP, knights, bytes);
    let rooks = kind_listed(bitboards, ROOK, bishops, bytes);
    let queens = kind_listed(bitboards, QUEEN, rooks, bytes);
    kind_listed(bitboards, KING, queens, bytes)
}

// What stands beside a refusal: a trace of zeros, and no entry.
fn refused(refusal: Refusal) -> ListTraced
    ensures { result ≡ refused_list refusal }
{
    ListTraced {
        checked: Err(refusal),
        trace: Trace {
            pawns: [0, 0],
            knights: [0, 0],
            bishops: [0, 0],
            rooks: [0, 0],
            queens: [0, 0],
            bishop_pair: [0, 0],
            mobility: [0; Piece::COUNT],
            side: 0,
            piece_count: 0,
        },
        used: 0,
    }
}

// SHAPE, then OVERLAP, UNION, BYTEBOARD. The list's bytes are lent.
pub fn compute_list(
    bitboards: &[u64],
    board: &[u8],
    state: State,
    bytes: &mut [u8; BYTES],
) -> ListTraced
    ensures { ComputesList bitboards.now board.now state bytes.old result bytes.new }
{
    if let Err(refusal) = position::check(bitboards, board, state) {
        return refused(refusal);
    }
    let mobility = trace::inner::mobility(bitboards);
    let trace = trace::inner::gathered(bitboards, state.side, mobility);
    clear(bytes);
    let entries = listed(bitboards, bytes);
    let used = entries as u8;
    ListTraced {
        checked: Ok(()),
        trace,
        used,
    }
}
