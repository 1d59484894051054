// A board as a table: columns of counts, and the letters of the files.
ghost use Rattle.std.specs.Prelude.{◌≡◌, ◌+◌, ◌-◌, ◌≤◌, length};
ghost use Rattle.text_out.specs.Text.{Adds};
ghost use Rattle.store_text.specs.Board.{laid};
ghost use Rattle.store_text.specs.Table.{width_of, in_column, count_word, file_word, letters_row};
ghost use Rattle.store_text.specs.Promises.{Columns};

use crate::words::put;

// The files of a board.
const FILES: u8 = 8;

// No number has more digits.
const DIGITS: usize = 20;

// How many digits the largest count has.
pub(crate) fn width(most: u64) -> usize
    ensures { result ≡ width_of most }
{
    let mut digits = [0u8; DIGITS];
    text_out::decimal(&mut digits, 0, most).unwrap_or(0)
}

// The spaces before a word of so many bytes, one at least.
fn spaces(width: usize, size: usize) -> usize
    requires { width ≤ 20 }
    ensures { result ≡ width - size + 1 }
{
    if width <= size {
        return 1;
    }
    width - size + 1
}

// A word at the right end of its column.
fn column(out: &mut [u8], at: usize, word: &[u8], width: usize) -> usize
    requires { (length word.now ≤ 20) × Columns 21 width out.old at }
    ensures { Adds out.old at (in_column width word.now) out.new result }
{
    let blank = [b' '; 21];
    let n = spaces(width, word.len());
    let next = put(out, at, &blank[..n]);
    put(out, next, word)
}

// A count in its column, or a point.
pub(crate) fn count(out: &mut [u8], at: usize, n: u64, width: usize) -> usize
    requires { Columns 21 width out.old at }
    ensures { Adds out.old at (in_column width (count_word n)) out.new result }
{
    if n == 0 {
        return column(out, at, b".", width);
    }
    let mut digits = [0u8; DIGITS];
    let k = text_out::decimal(&mut digits, 0, n).unwrap_or(0);
    column(out, at, &digits[..k], width)
}

// The letters under the columns.
fn files(out: &mut [u8], at: usize, width: usize) -> usize
    requires { Columns 168 width out.old at }
    ensures { Adds out.old at (laid 8 (λ file. in_column width (file_word file))) out.new result }
{
    let mut end = at;
    for file in 0..FILES {
        let letter = [b'a' + file];
        end = column(out, end, &letter, width);
    }
    end
}

pub(crate) fn letters(out: &mut [u8], at: usize, width: usize) -> usize
    requires { Columns 170 width out.old at }
    ensures { Adds out.old at (letters_row width) out.new result }
{
    let a = put(out, at, b" ");
    let b = files(out, a, width);
    put(out, b, b"\n")
}
