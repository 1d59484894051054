// What a person sees of a store's summary: a table or a picture of it, or the row of the first record that is refused.
#![tactic(auto)]

ghost use Rattle.std.specs.Prelude.{◌≡◌, ◌≤◌, length};
ghost use Rattle.text_out.specs.Text.{Adds};
ghost use Rattle.ledger_row.specs.Row.{refused_row};
ghost use Rattle.store_text.specs.Promises.{ShowsSummary, ReadsCall, store_named};

use crate::words::{number, put, spaced};
use refusal::Refusal;
use store_counts::SUMMARY;
use store_gather::First;
use text_in::inner::is;

mod page;
mod picture;
mod table;
mod words;

// Numbers in rows and columns, or SVG.
#[derive(Clone, Copy)]
pub enum Form {
    Table,
    Picture,
}

// So many bytes of the summary's text, or of the row of a record that is refused.
#[derive(Clone, Copy)]
pub enum Shown {
    Page(usize),
    Row(usize),
}

// The store on standard input, or in the file that an argument names; or more arguments than one store has.
#[derive(Clone, Copy)]
pub enum Call {
    Input(Form),
    File(Form, usize),
    TooMany,
}

// The room that every text has enough of.
pub const ROOM: usize = 262144;

// Which argument names the store, of so many with the program's name.
fn named_store(form: Form, file: usize, count: usize) -> Call
    requires { file ≤ 2 }
    ensures { result ≡ store_named form file count }
{
    if count <= file {
        return Call::Input(form);
    }
    if count == file + 1 {
        return Call::File(form, file);
    }
    Call::TooMany
}

// What a call of the program asks for, by its first argument, empty where there is none, and how many there are.
pub fn read_call(first: &[u8], count: usize) -> Call
    ensures { ReadsCall first.now count result }
{
    if is(first, b"--svg") {
        return named_store(Form::Picture, 2, count);
    }
    named_store(Form::Table, 1, count)
}

fn wide(n: u8) -> u64
    ensures { result ≡ n }
{
    n as u64
}

fn write_row(first: First, out: &mut [u8]) -> usize
    requires { 64 ≤ length out.old }
    ensures { Adds out.old 0 (refused_row first.number first.refusal) out.new result }
{
    let a = spaced(out, 0, first.number);
    let b = put(out, a, b"refused ");
    let c = number(out, b, wide(first.refusal));
    put(out, c, b"\n")
}

// SHAPE, ROOM. What is shown is written at the front of a lent buffer.
pub fn show(form: Form, first: First, summary: &[u64], out: &mut [u8]) -> Result<Shown, Refusal>
    ensures { ShowsSummary form first summary.now out.old result out.new }
{
    if summary.len() != SUMMARY {
        return Err(Refusal::Shape);
    }
    if out.len() < ROOM {
        return Err(Refusal::Room);
    }
    if first.number != 0 {
        return Ok(Shown::Row(write_row(first, out)));
    }
    Ok(Shown::Page(page::page(form, summary, out)))
}
