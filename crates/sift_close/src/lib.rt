// A line or a record that ends: what is made of it goes into one buffer, or the row of its refusal into the other.
#![tactic(auto)]

ghost use Rattle.sift_close.specs.Ended.{ClosesSifted, TellsRead};

use line::inner::Loaded;
use sift_form::Form;

// One line, counted as loaded or as refused; and the place after what was added to each buffer.
#[derive(Clone, Copy)]
pub struct Closed {
    pub loaded: u64,
    pub refused: u64,
    pub made: usize,
    pub rows: usize,
}

// What a reader gave decides, whether of a line or of a record. Where a buffer lacks the room, nothing changes in it.
pub fn tell(
    form: Form,
    read: Loaded,
    number: u64,
    made: &mut [u8],
    at: usize,
    rows: &mut [u8],
    from: usize,
) -> Closed
    ensures { TellsRead form read number made.old at rows.old from result made.new rows.new }
{
    let answer = read.answer;
    match answer {
        Err(refusal) => Closed {
            loaded: 0,
            refused: 1,
            made: at,
            rows: ledger_row::inner::refused(number, refusal, rows, from).unwrap_or(from),
        },
        Ok((state, half)) => {
            let bitboards = read.bitboards;
            let board = read.board;
            Closed {
                loaded: 1,
                refused: 0,
                made: sift_form::make(form, &bitboards, &board, state, half, made, at).unwrap_or(
                    at,
                ),
                rows: from,
            }
        }
    }
}

// A line by a buffer that holds its first bytes: one of so many bytes is LONG where the buffer does not hold it whole.
pub fn close(
    form: Form,
    line: &[u8],
    size: usize,
    number: u64,
    made: &mut [u8],
    at: usize,
    rows: &mut [u8],
    from: usize,
) -> Closed
    ensures { ClosesSifted form line.now size number made.old at rows.old from result made.new rows.new }
{
    tell(
        form,
        line_held::read(line, size),
        number,
        made,
        at,
        rows,
        from,
    )
}
