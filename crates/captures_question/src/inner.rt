// The move and the order that a question names, for the crates above: total, no door. What is no square is 64 and what is no kind 6, which the
// exchange refuses.
ghost use Rattle.std.specs.Prelude.{◌≡◌, ◌≤◌};
ghost use Rattle.captures_question.specs.Question.{nth_square, kind_of_letter, order_of, kinds_in};
ghost use Rattle.captures_question.specs.Promises.{Asks};

use chess::kind::Kind;
use line_tail::inner::{NOWHERE, square};
use text_in::inner::{find, text_after, text_before, trim};

// Two squares and an order of the kinds.
#[derive(Clone, Copy)]
pub struct Asked {
    pub from: u8,
    pub to: u8,
    pub order: [u8; Kind::COUNT],
}

// The square that begins at a place of a text of two squares.
fn nth_square(s: &[u8], at: usize) -> u8
    requires { at ≤ 2 }
    ensures { result ≡ nth_square s.now at }
{
    if s.len() != 4 {
        return NOWHERE;
    }
    square(s[at], s[at + 1])
}

fn kind(letter: u8) -> u8
    ensures { result ≡ kind_of_letter letter }
{
    find(b"pnbrqk", letter) as u8
}

// Six letters.
fn order(s: &[u8]) -> [u8; Kind::COUNT]
    ensures { result ≡ order_of s.now }
{
    if s.len() != Kind::COUNT {
        return [6; Kind::COUNT];
    }
    [
        kind(s[0]),
        kind(s[1]),
        kind(s[2]),
        kind(s[3]),
        kind(s[4]),
        kind(s[5]),
    ]
}

// The order that a field names; document 01's where the field is empty.
fn kinds(s: &[u8]) -> [u8; Kind::COUNT]
    ensures { result ≡ kinds_in s.now }
{
    if s.len() == 0 {
        return exchange_order::order();
    }
    order(s)
}

// What a question asks, after its line's result.
pub fn read(question: &[u8]) -> Asked
    ensures { Asks question.now result }
{
    let rest = text_after(text_after(question, b';'), b';');
    let squares = trim(text_before(rest, b';'));
    let letters = trim(text_before(text_after(rest, b';'), b';'));
    Asked {
        from: nth_square(squares, 0),
        to: nth_square(squares, 2),
        order: kinds(letters),
    }
}
