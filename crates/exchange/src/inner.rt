// The captures of an exchange in order, for the crates above: total, no door.
ghost use Rattle.std.specs.Prelude.{◌≡◌};
ghost use Rattle.chess.specs.Values.{value_of};
ghost use Rattle.position_further.specs.Rule.{on_rank};
ghost use Rattle.exchange_start.specs.Capture.{passed_pawn};
ghost use Rattle.exchange.specs.Exchange.{emptied, last_rank, promotes, taken_by, becomes};
ghost use Rattle.exchange.specs.PrivateFirst.{BeginsCaptures, made_of, followed};
ghost use Rattle.exchange.specs.Promises.{HoldsCaptures, Lists};

use attack::inner::{occupied, other};
use chess::color::WHITE;
use chess::inner::value;
use chess::kind::{PAWN, QUEEN};
use exchange_least::inner::capturer;
use exchange_start::Mode;
use exchange_start::inner::{kind_on, takes_passing};
use position::State;

// The pieces that CROWD allows.
pub const MOST: usize = 32;

// The first `count` places: the square that each capture is made from, the kind that makes it, and the value that it takes. Zeros after them.
#[derive(Clone, Copy)]
pub struct Listed {
    pub from: [u8; MOST],
    pub kind: [u8; MOST],
    pub taken: [u16; MOST],
    pub count: usize,
}

// The squares of b but one.
fn without(b: u64, square: u8) -> u64
    ensures { result ≡ emptied b square }
{
    if square > chess::square::LAST {
        return b;
    }
    b & !(1 << square)
}

// How far it is from a square to the one above.
const UP: u8 = chess::square::UP as u8;

// The queen's value less the pawn's.
const PROMOTION: u16 = 913;

// White's eighth rank, and Black's first.
fn on_last_rank(color: u8, to: u8) -> bool
    ensures { result ≡ on_rank (last_rank color) to }
{
    if color == WHITE {
        return to / UP + 1 == 8;
    }
    to / UP + 1 == 1
}

// Whether a piece that captures on `to` becomes a queen, which the second mode alone knows.
fn promotes(mode: Mode, to: u8, color: u8, kind: u8) -> bool
    ensures { result ≡ promotes mode to color kind }
{
    if kind != PAWN {
        return false;
    }
    match mode {
        Mode::First => false,
        Mode::Second => on_last_rank(color, to),
    }
}

// What taking a piece of this kind brings.
fn worth(promoted: bool, kind: u8) -> u16
    ensures { result ≡ taken_by promoted (value_of kind) }
{
    let taken = value(kind) as u16;
    if promoted {
        return taken + PROMOTION;
    }
    taken
}

// What stands on the target after a capture by this kind.
fn becomes(promoted: bool, kind: u8) -> u8
    ensures { result ≡ becomes promoted kind }
{
    if promoted {
        return QUEEN;
    }
    kind
}

// The squares of b but the passed pawn's.
fn without_passed(b: u64, side: u8, to: u8) -> u64
    ensures { result ≡ emptied b (passed_pawn side to) }
{
    if side == WHITE {
        if to < UP {
            return without(b, 0);
        }
        return without(b, to - UP);
    }
    if to > chess::square::LAST {
        return b;
    }
    without(b, to + UP)
}

// The first capture: the kind that makes it, the value that it takes, what then stands on the target, and where else pieces stand.
#[derive(Clone, Copy)]
struct Begun {
    kind: u8,
    taken: u16,
    last: u8,
    there: u64,
}

fn begin(mode: Mode, bitboards: &[u64], board: &[u8], state: State, from: u8, to: u8) -> Begun
    ensures { BeginsCaptures mode bitboards.now board.now state from to result }
{
    let kind = kind_on(board, from);
    let promoted = promotes(mode, to, state.side, kind);
    let all = occupied(bitboards);
    if takes_passing(mode, board, state, from, to) {
        return Begun {
            kind,
            taken: worth(promoted, PAWN),
            last: becomes(promoted, kind),
            there: without(without_passed(all, state.side, to), from),
        };
    }
    Begun {
        kind,
        taken: worth(promoted, kind_on(board, to)),
        last: becomes(promoted, kind),
        there: without(all, from),
    }
}

// A capture made: the value that it takes, what then stands on the target, where else pieces stand, and who captures next.
#[derive(Clone, Copy)]
struct Made {
    taken: u16,
    last: u8,
    there: u64,
    color: u8,
}

// The piece of this kind on a square captures: `last` stands on the target, and pieces stand `there`.
fn make(mode: Mode, to: u8, color: u8, square: u8, kind: u8, last: u8, there: u64) -> Made
    ensures { result ≡ made_of mode to color square kind last there }
{
    let promoted = promotes(mode, to, color, kind);
    Made {
        taken: worth(promoted, last),
        last: becomes(promoted, kind),
        there: without(there, square),
        color: other(color),
    }
}

// The first capture, and those that follow it, as long as there is room: a capture of the other side first.
fn follow(
    mode: Mode,
    bitboards: &[u64],
    kinds: &[u8],
    begun: Begun,
    side: u8,
    from: u8,
    to: u8,
) -> Listed
    ensures { HoldsCaptures (followed mode kinds.now bitboards.now side from to begun) result }
{
    let first = begun.kind;
    let value = begun.taken;
    let mut squares: [u8; MOST] = [0; MOST];
    let mut by: [u8; MOST] = [0; MOST];
    let mut taken: [u16; MOST] = [0; MOST];
    squares[0] = from;
    by[0] = first;
    taken[0] = value;
    let mut last = begun.last;
    let mut there = begun.there;
    let mut color = other(side);
    for n in 1..MOST {
        let a = capturer(bitboards, kinds, color, to, there);
        let Some((square, kind)) = a else {
            return Listed {
                from: squares,
                kind: by,
                taken,
                count: n,
            };
        };
        let made = make(mode, to, color, square, kind, last, there);
        squares[n] = square;
        by[n] = kind;
        taken[n] = made.taken;
        last = made.last;
        there = made.there;
        color = made.color;
    }
    Listed {
        from: squares,
        kind: by,
        taken,
        count: MOST,
    }
}

// The captures on `to` that the piece on `from` starts, by the kinds in the order given. With 32 pieces there are at most 31, and so they come to an
// end before MOST.
pub fn list(
    mode: Mode,
    bitboards: &[u64],
    board: &[u8],
    kinds: &[u8],
    state: State,
    from: u8,
    to: u8,
) -> Listed
    ensures { Lists mode kinds.now bitboards.now board.now state from to result }
{
    let begun = begin(mode, bitboards, board, state, from, to);
    follow(mode, bitboards, kinds, begun, state.side, from, to)
}
