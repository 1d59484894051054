// Total, and no door: from a square above 63 and in a direction past the eight nothing is seen.
ghost use Rattle.std.specs.Prelude.{◌≡◌, ◌+◌, ◌<◌, T, [], ◌∷◌};
ghost use Rattle.bits.specs.Bitboard.{has, those, board};
ghost use Rattle.attack_rays.specs.Rays.{ray_of, dir_of, seen};
ghost use Rattle.attack_rays.specs.PrivateMirror.{ahead, mirrored, partner, paired};
ghost use Rattle.attack_rays.specs.Promises.{Rays, Bishops, Rooks, Queens};

use chess::square::LAST;

// On the first four the squares rise. Each of the others is opposite to the one four before it: SOUTH, west, southeast, SOUTHWEST.
pub const NORTH: u8 = 0;

pub const EAST: u8 = 1;

pub const NORTHWEST: u8 = 2;

pub const NORTHEAST: u8 = 3;

pub const SOUTH: u8 = 4;

pub const SOUTHWEST: u8 = 7;

// Each square of x changed with its partner n above or below: m has the lower of each two.
fn swapped(x: u64, n: u64, m: u64) -> u64
    requires { (n < 64) × T (paired n m) }
    ensures { result ≡ those 64 (λ k. has x (partner n m k)) }
{
    ((x >> n) & m) | ((x & m) << n)
}

// The board turned half round: square k goes to 63 - k, and a way on which the squares fall becomes one on which they rise.
fn mirror(x: u64) -> u64
    ensures { result ≡ mirrored x }
{
    let a = swapped(x, 1, 0x5555_5555_5555_5555);
    let b = swapped(a, 2, 0x3333_3333_3333_3333);
    let c = swapped(b, 4, 0x0f0f_0f0f_0f0f_0f0f);
    let d = swapped(c, 8, 0x00ff_00ff_00ff_00ff);
    let e = swapped(d, 16, 0x0000_ffff_0000_ffff);
    swapped(e, 32, 0x0000_0000_ffff_ffff)
}

// A rank has 8 files.
const FILES: u8 = 8;

// The first file, and the last.
const FILE_A: u64 = 0x0101_0101_0101_0101;

const FILE_H: u64 = 0x8080_8080_8080_8080;

// The squares from a square on in a direction on which they rise, to the edge of the board. A way that goes round an edge would
// come to a file on the other side.
fn way(direction: u8, square: u8) -> u64
    requires { (direction < 4) × (square < 64) }
    ensures { result ≡ board (ahead direction square) }
{
    match direction {
        NORTH => 0x0101_0101_0101_0100 << square,
        EAST => (0xfe << square) & (0xff << (square / FILES * FILES)),
        NORTHWEST => (0x0002_0408_1020_4080 << square) & ((FILE_A << (square % FILES)) - FILE_A),
        _ => (0x8040_2010_0804_0200 << square) & ((FILE_H - (FILE_A << (square % FILES))) << 1),
    }
}

// What is seen in a direction on which the squares rise: the occupied squares of the way, and the same less twice the slider, differ
// up to and including the first that is occupied. With none the subtraction borrows from beyond the board: it is meant to wrap.
fn rising(direction: u8, square: u8, occupied: u64) -> u64
    requires { (direction < 4) × (square < 64) }
    ensures { result ≡ ray_of (dir_of direction) square occupied }
{
    let way = way(direction, square);
    let there = occupied & way;
    let less = std::num::wrapping_sub_u64(there, 2 << square);
    (there ^ less) & way
}

// What is seen on two lines, each both ways: the other way is the mirror image's.
fn lines(first: u8, second: u8, square: u8, occupied: u64) -> u64
    requires { (first < 4) × (second < 4) × (square < 64) }
    ensures { result ≡ board (seen (dir_of first ∷ dir_of second ∷ dir_of (first + 4) ∷ dir_of (second + 4) ∷ []) square occupied) }
{
    let mirrored = mirror(occupied);
    let opposite = LAST - square;
    let a = rising(first, square, occupied);
    let b = rising(second, square, occupied);
    let c = rising(first, opposite, mirrored);
    let d = rising(second, opposite, mirrored);
    (a | b) | mirror(c | d)
}

// The squares from a square on in a direction, up to and including the first that is occupied. Every ray is the same work.
pub fn ray(direction: u8, square: u8, occupied: u64) -> u64
    ensures { Rays direction square occupied result }
{
    if direction > SOUTHWEST {
        return 0;
    }
    if square > LAST {
        return 0;
    }
    if direction < SOUTH {
        return rising(direction, square, occupied);
    }
    mirror(rising(direction - SOUTH, LAST - square, mirror(occupied)))
}

pub fn bishop(square: u8, occupied: u64) -> u64
    ensures { Bishops square occupied result }
{
    if square > LAST {
        return 0;
    }
    lines(NORTHWEST, NORTHEAST, square, occupied)
}

pub fn rook(square: u8, occupied: u64) -> u64
    ensures { Rooks square occupied result }
{
    if square > LAST {
        return 0;
    }
    lines(NORTH, EAST, square, occupied)
}

pub fn queen(square: u8, occupied: u64) -> u64
    ensures { Queens square occupied result }
{
    rook(square, occupied) | bishop(square, occupied)
}
