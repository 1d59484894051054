// A board as a picture: squares, counts, the digits of the ranks, and where the board stands.
ghost use Rattle.std.specs.Prelude.{◌≡◌, ◌+◌, ◌<◌, ◌≤◌, ◌++◌, length};
ghost use Rattle.text_out.specs.Text.{Adds};
ghost use Rattle.store_text.specs.Picture.{darkness, across_at, down_at, square_drawn, count_drawn, count_if_any, rank_drawn, board_at, letters_drawn, picture_begin};
ghost use Rattle.store_text.specs.Promises.{SquareRoom};

use crate::words::{named, put};

// The side of a square.
const SIDE: u64 = 48;

// From here on a count times nine might pass 64 bits.
const VAST: u64 = 0x1000_0000_0000_0000;

fn wide(n: usize) -> u64
    ensures { result ≡ n }
{
    n as u64
}

fn across(i: usize) -> u64
    requires { i < 64 }
    ensures { result ≡ across_at i }
{
    SIDE * wide(i % 8)
}

fn down(i: usize) -> u64
    requires { i < 64 }
    ensures { result ≡ down_at i }
{
    SIDE * wide(i / 8)
}

// The class of a square, by its count and the largest.
fn dark(most: u64, n: u64) -> u64
    ensures { result ≡ darkness most n }
{
    if most == 0 {
        return 0;
    }
    if n >= VAST {
        return 9;
    }
    9 * n / most
}

fn field(out: &mut [u8], at: usize, most: u64, n: u64, i: usize) -> usize
    requires { SquareRoom 110 i out.old at }
    ensures { Adds out.old at (square_drawn most n i) out.new result }
{
    let a = named(out, at, b"<rect x='", across(i));
    let b = named(out, a, b"' y='", down(i));
    let c = named(out, b, b"' width='48' height='48' class='h", dark(most, n));
    put(out, c, b"'/>")
}

fn count(out: &mut [u8], at: usize, n: u64, i: usize) -> usize
    requires { SquareRoom 83 i out.old at }
    ensures { Adds out.old at (count_drawn n i) out.new result }
{
    let a = named(out, at, b"<text x='", across(i) + 24);
    let b = named(out, a, b"' y='", down(i) + 29);
    let c = named(out, b, b"'>", n);
    put(out, c, b"</text>")
}

fn count_if_any(out: &mut [u8], at: usize, n: u64, i: usize) -> usize
    requires { SquareRoom 83 i out.old at }
    ensures { Adds out.old at (count_if_any n i) out.new result }
{
    if n == 0 {
        return put(out, at, b"");
    }
    count(out, at, n, i)
}

// A square, and its count where there is one.
pub(crate) fn square(out: &mut [u8], at: usize, most: u64, n: u64, i: usize) -> usize
    requires { SquareRoom 193 i out.old at }
    ensures { Adds out.old at (square_drawn most n i ++ count_if_any n i) out.new result }
{
    let next = field(out, at, most, n, i);
    count_if_any(out, next, n, i)
}

// The digit of a rank.
pub(crate) fn rank(out: &mut [u8], at: usize, i: usize) -> usize
    requires { SquareRoom 66 i out.old at }
    ensures { Adds out.old at (rank_drawn i) out.new result }
{
    let a = named(out, at, b"<text x='-14' y='", down(i) + 29);
    let b = named(out, a, b"'>", wide(8 - i / 8));
    put(out, b, b"</text>")
}

// Four boards beside each other.
pub(crate) fn board(out: &mut [u8], at: usize, piece: usize) -> usize
    requires { (piece < 12) × (at + 93 ≤ length out.old) }
    ensures { Adds out.old at (board_at piece) out.new result }
{
    let a = named(
        out,
        at,
        b"<g transform='translate(",
        wide(60 + 440 * (piece % 4)),
    );
    let b = named(out, a, b" ", wide(100 + 450 * (piece / 4)));
    put(out, b, b")'>\n<text class='t' y='-12'>")
}

// The letters of the files, and the board's end.
pub(crate) fn letters(out: &mut [u8], at: usize) -> usize
    requires { at + 250 ≤ length out.old }
    ensures { Adds out.old at letters_drawn out.new result }
{
    let next = put(
        out,
        at,
        b"<text x='24' y='402'>a</text><text x='72' y='402'>b</text><text x='120' y='402'>c</text><text x='168' y='402'>d</text>",
    );
    put(
        out,
        next,
        b"<text x='216' y='402'>e</text><text x='264' y='402'>f</text><text x='312' y='402'>g</text><text x='360' y='402'>h</text>\n</g>\n",
    )
}

// Before all boards.
pub(crate) fn begin(out: &mut [u8], at: usize) -> usize
    requires { at + 410 ≤ length out.old }
    ensures { Adds out.old at picture_begin out.new result }
{
    let a = put(
        out,
        at,
        b"<svg xmlns='http://www.w3.org/2000/svg' viewBox='0 0 1800 1430' font-family='sans-serif' font-size='11' text-anchor='middle'>\n",
    );
    let b = put(
        out,
        a,
        b"<style>rect{stroke:#aaa}.t{font-size:18px;text-anchor:start}.h0{fill:#fff}.h1{fill:#fed}.h2{fill:#fdc}.h3{fill:#fdb}.h4{fill:#fca}",
    );
    let c = put(
        out,
        b,
        b".h5{fill:#fb8}.h6{fill:#fa6}.h7{fill:#f95}.h8{fill:#e83}.h9{fill:#d62}</style>\n<path d='M0 0h1800v1430H0z' fill='#fff'/>\n",
    );
    put(out, c, b"<text class='t' x='60' y='40'>")
}
