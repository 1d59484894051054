// The door to the writer of a position's line.
#![tactic(auto)]

ghost use Rattle.std.specs.Prelude.{◌≡◌};
ghost use Rattle.abi_writes.specs.Promises.{wanted_of, WritesPosition};

use abi_codes::{Code, GIVEN, refused};
use abi_states::{State, taken};

// Request and half points are two numbers here: where no result is requested the half points are not looked at.
fn wanted(request: u8, half: u8) -> Option<u8>
    ensures { result ≡ wanted_of request half }
{
    if request == 0 {
        return None;
    }
    Some(half)
}

// The text of a position at the front of `out`, with `;` and a result where `request` is not 0; how many bytes it has: SHAPE, OVERLAP, UNION,
// BYTEBOARD, RIGHTS, PASSANT, COUNTER, RESULT, ROOM.
pub fn chess_write_line(
    bitboards: &[u64],
    board: &[u8],
    state: State,
    request: u8,
    half: u8,
    out: &mut [u8],
    length: &mut usize,
) -> Code
    ensures { WritesPosition bitboards.now board.now state request half out.old length.old result out.new length.new }
{
    match line_write::write_line(bitboards, board, taken(state), wanted(request, half), out) {
        Err(refusal) => refused(refusal),
        Ok(n) => {
            *length = n;
            GIVEN
        }
    }
}
