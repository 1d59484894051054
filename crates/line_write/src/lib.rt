// The line of a position, written at the front of a lent buffer or refused.
#![tactic(auto)]

ghost use Rattle.line_write.specs.Promises.{WritesLine, WritesText, Shows};

use position::State;
use refusal::Refusal;

// The place after a text at the front is its length.
fn shown(placed: Option<usize>) -> Result<usize, Refusal>
    ensures { Shows placed result }
{
    placed.ok_or(Refusal::Room)
}

// How many bytes were written. A result's half points are wanted or not: 2 is `1-0`. RESULT, ROOM.
fn write_text(
    board: &[u8],
    state: State,
    wanted: Option<u8>,
    out: &mut [u8],
) -> Result<usize, Refusal>
    ensures { WritesText board.now state wanted out.old out.new result }
{
    match wanted {
        None => shown(line_spell::inner::position(board, state, out, 0)),
        Some(half) => {
            if half > 2 {
                return Err(Refusal::Result);
            }
            shown(line_spell::inner::line(board, state, half, out, 0))
        }
    }
}

// SHAPE, OVERLAP, UNION, BYTEBOARD, RIGHTS, PASSANT, COUNTER, RESULT, ROOM.
pub fn write_line(
    bitboards: &[u64],
    board: &[u8],
    state: State,
    wanted: Option<u8>,
    out: &mut [u8],
) -> Result<usize, Refusal>
    ensures { WritesLine bitboards.now board.now state wanted out.old out.new result }
{
    position::check(bitboards, board, state)?;
    write_text(board, state, wanted, out)
}
