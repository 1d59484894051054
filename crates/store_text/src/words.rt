// The words of a text, put into a buffer that has room for them.
ghost use Rattle.std.specs.Prelude.{◌+◌, ◌≤◌, length};
ghost use Rattle.text_out.specs.Text.{Adds, decimal_of};
ghost use Rattle.ledger_row.specs.Row.{spaced as Row·spaced};
ghost use Rattle.store_text.specs.Board.{piece_words};
ghost use Rattle.store_text.specs.Picture.{numbered};

pub(crate) fn put(out: &mut [u8], at: usize, s: &[u8]) -> usize
    ensures { Adds out.old at s.now out.new result }
{
    text_out::put(out, at, s).unwrap_or(at)
}

pub(crate) fn number(out: &mut [u8], at: usize, n: u64) -> usize
    ensures { Adds out.old at (decimal_of n) out.new result }
{
    text_out::decimal(out, at, n).unwrap_or(at)
}

// A number and the space after it.
pub(crate) fn spaced(out: &mut [u8], at: usize, n: u64) -> usize
    requires { at + 21 ≤ length out.old }
    ensures { Adds out.old at (Row·spaced n) out.new result }
{
    let end = number(out, at, n);
    put(out, end, b" ")
}

// A number and the word before it.
pub(crate) fn named(out: &mut [u8], at: usize, word: &[u8], n: u64) -> usize
    requires { at + (length word.now + 20) ≤ length out.old }
    ensures { Adds out.old at (numbered word.now n) out.new result }
{
    let end = put(out, at, word);
    number(out, end, n)
}

// The piece's name, and a space.
pub(crate) fn piece_words(out: &mut [u8], at: usize, piece: usize) -> usize
    ensures { Adds out.old at (piece_words piece) out.new result }
{
    match piece {
        0 => put(out, at, b"white pawn "),
        1 => put(out, at, b"black pawn "),
        2 => put(out, at, b"white knight "),
        3 => put(out, at, b"black knight "),
        4 => put(out, at, b"white king "),
        5 => put(out, at, b"black king "),
        6 => put(out, at, b"white bishop "),
        7 => put(out, at, b"black bishop "),
        8 => put(out, at, b"white rook "),
        9 => put(out, at, b"black rook "),
        10 => put(out, at, b"white queen "),
        _ => put(out, at, b"black queen "),
    }
}
