// A summary as a text, board after board: what the forms have in common, and which of them says what.
ghost use Rattle.std.specs.Prelude.{◌≡◌, ◌+◌, ◌<◌, ◌≤◌, max, length};
ghost use Rattle.text_out.specs.Text.{Adds};
ghost use Rattle.store_text.specs.Board.{count_on, drawn_square, laid};
ghost use Rattle.store_text.specs.Page.{page_begin, page_end, words_end, board_begin, board_end, rank_before, row_end, rank_digit, square_word, square_shown, squares_shown, board_head, board_text, page_head, page_of};
ghost use Rattle.store_text.specs.Promises.{AddsUp, BoardRoom, OnePiece, SquareRoom};

use crate::words::{named, number, piece_words, put};
use crate::{Form, picture, table};
use chess::piece::Piece;
use chess::square::Square;
use store_counts::{PIECES, POINTS, RECORDS};

// The files of a board, and its ranks.
const FILES: usize = 8;

// How many there are of a piece, and how many on one square at most.
#[derive(Clone, Copy)]
struct Sums {
    total: u64,
    most: u64,
}

fn larger(a: u64, b: u64) -> u64
    ensures { result ≡ max a b }
{
    if a < b { b } else { a }
}

fn count_on(summary: &[u64], piece: usize, square: usize) -> u64
    requires { OnePiece summary.now piece × (square < 64) }
    ensures { result ≡ count_on summary.now piece square }
{
    summary[PIECES + Square::COUNT * piece + square]
}

fn add_up(summary: &[u64], piece: usize) -> Sums
    requires { OnePiece summary.now piece }
    ensures { AddsUp summary.now piece result }
{
    let mut total: u64 = 0;
    let mut most: u64 = 0;
    for square in 0..Square::COUNT {
        let n = count_on(summary, piece, square);
        total = std::num::wrapping_add_u64(total, n);
        most = larger(most, n);
    }
    Sums { total, most }
}

// ---- what the forms differ in
fn page_begin(form: Form, out: &mut [u8], at: usize) -> usize
    requires { at + 410 ≤ length out.old }
    ensures { Adds out.old at (page_begin form) out.new result }
{
    match form {
        Form::Table => put(out, at, b""),
        Form::Picture => picture::begin(out, at),
    }
}

fn page_end(form: Form, out: &mut [u8], at: usize) -> usize
    ensures { Adds out.old at (page_end form) out.new result }
{
    match form {
        Form::Table => put(out, at, b""),
        Form::Picture => put(out, at, b"</svg>\n"),
    }
}

fn words_end(form: Form, out: &mut [u8], at: usize) -> usize
    ensures { Adds out.old at (words_end form) out.new result }
{
    match form {
        Form::Table => put(out, at, b"\n"),
        Form::Picture => put(out, at, b"</text>\n"),
    }
}

fn board_begin(form: Form, piece: usize, out: &mut [u8], at: usize) -> usize
    requires { (piece < 12) × (at + 93 ≤ length out.old) }
    ensures { Adds out.old at (board_begin form piece) out.new result }
{
    match form {
        Form::Table => put(out, at, b"\n"),
        Form::Picture => picture::board(out, at, piece),
    }
}

fn board_end(form: Form, most: u64, out: &mut [u8], at: usize) -> usize
    requires { at + 300 ≤ length out.old }
    ensures { Adds out.old at (board_end form most) out.new result }
{
    match form {
        Form::Table => table::letters(out, at, table::width(most)),
        Form::Picture => picture::letters(out, at),
    }
}

fn rank_word(form: Form, i: usize, out: &mut [u8], at: usize) -> usize
    requires { SquareRoom 66 i out.old at }
    ensures { Adds out.old at (rank_digit form i) out.new result }
{
    match form {
        Form::Table => number(out, at, (FILES - i / FILES) as u64),
        Form::Picture => picture::rank(out, at, i),
    }
}

fn square_word(form: Form, most: u64, n: u64, i: usize, out: &mut [u8], at: usize) -> usize
    requires { SquareRoom 193 i out.old at }
    ensures { Adds out.old at (square_word form most n i) out.new result }
{
    match form {
        Form::Table => table::count(out, at, n, table::width(most)),
        Form::Picture => picture::square(out, at, most, n, i),
    }
}

// ---- what they have in common
fn rank_before(form: Form, i: usize, out: &mut [u8], at: usize) -> usize
    requires { SquareRoom 66 i out.old at }
    ensures { Adds out.old at (rank_before form i) out.new result }
{
    if i % FILES == 0 {
        return rank_word(form, i, out, at);
    }
    put(out, at, b"")
}

fn row_end(i: usize, out: &mut [u8], at: usize) -> usize
    ensures { Adds out.old at (row_end i) out.new result }
{
    if i % FILES == 7 {
        return put(out, at, b"\n");
    }
    put(out, at, b"")
}

fn square(form: Form, most: u64, n: u64, i: usize, out: &mut [u8], at: usize) -> usize
    requires { SquareRoom 260 i out.old at }
    ensures { Adds out.old at (square_shown form most n i) out.new result }
{
    let a = rank_before(form, i, out, at);
    let b = square_word(form, most, n, i, out, a);
    row_end(i, out, b)
}

// The square of a board at a place of the drawing.
fn drawn(i: usize) -> usize
    requires { i < 64 }
    ensures { result ≡ drawn_square i }
{
    FILES * (7 - i / FILES) + i % FILES
}

fn squares(form: Form, summary: &[u64], piece: usize, most: u64, out: &mut [u8], at: usize) -> usize
    requires { BoardRoom 16640 summary.now piece out.old at }
    ensures { Adds out.old at (laid 64 (squares_shown form summary.now piece most)) out.new result }
{
    let mut end = at;
    for i in 0..Square::COUNT {
        let n = count_on(summary, piece, drawn(i));
        end = square(form, most, n, i, out, end);
    }
    end
}

// The piece and how many there are.
fn board_head(form: Form, piece: usize, total: u64, out: &mut [u8], at: usize) -> usize
    requires { (piece < 12) × (at + 134 ≤ length out.old) }
    ensures { Adds out.old at (board_head form piece total) out.new result }
{
    let a = board_begin(form, piece, out, at);
    let b = piece_words(out, a, piece);
    let c = number(out, b, total);
    words_end(form, out, c)
}

fn board(form: Form, summary: &[u64], piece: usize, out: &mut [u8], at: usize) -> usize
    requires { BoardRoom 17074 summary.now piece out.old at }
    ensures { Adds out.old at (board_text form summary.now piece) out.new result }
{
    let sums = add_up(summary, piece);
    let most = sums.most;
    let a = board_head(form, piece, sums.total, out, at);
    let b = squares(form, summary, piece, most, out, a);
    board_end(form, most, out, b)
}

fn boards(form: Form, summary: &[u64], out: &mut [u8], at: usize) -> usize
    requires { (length summary.now ≡ 770) × (at + 204888 ≤ length out.old) }
    ensures { Adds out.old at (laid 12 (board_text form summary.now)) out.new result }
{
    let mut end = at;
    for piece in 0..Piece::COUNT {
        end = board(form, summary, piece, out, end);
    }
    end
}

// The records and the half points.
fn page_head(form: Form, records: u64, points: u64, out: &mut [u8]) -> usize
    requires { 1000 ≤ length out.old }
    ensures { Adds out.old 0 (page_head form records points) out.new result }
{
    let a = page_begin(form, out, 0);
    let b = named(out, a, b"records ", records);
    let c = named(out, b, b" half points ", points);
    words_end(form, out, c)
}

pub(crate) fn page(form: Form, summary: &[u64], out: &mut [u8]) -> usize
    requires { (length summary.now ≡ 770) × (262144 ≤ length out.old) }
    ensures { Adds out.old 0 (page_of form summary.now) out.new result }
{
    let a = page_head(form, summary[RECORDS], summary[POINTS], out);
    let b = boards(form, summary, out, a);
    page_end(form, out, b)
}
