// The part of a position that goes by value, as a record that C has: both ways.
#![tactic(auto)]

ghost use Rattle.std.specs.Prelude.{◌≡◌};
ghost use Rattle.abi_states.specs.States.{passant_from, passant_number};
ghost use Rattle.abi_states.specs.Promises.{TakesState, TellsState};

use abi_codes::NO_SQUARE;
use position_further::Rights;

// The side, a flag for each right, the en passant square or 255 for none, and the counters: no right can be nonsense, any other number is refused
// where the position is tested.
#[repr(C)]
#[derive(Clone, Copy)]
pub struct State {
    pub side: u8,
    pub white_short: bool,
    pub white_long: bool,
    pub black_short: bool,
    pub black_long: bool,
    pub passant: u8,
    pub halfmoves: u16,
    pub moves: u16,
}

fn passant(number: u8) -> Option<u8>
    ensures { result ≡ passant_from number }
{
    if number == NO_SQUARE {
        return None;
    }
    Some(number)
}

fn number(passant: Option<u8>) -> u8
    ensures { result ≡ passant_number passant }
{
    match passant {
        None => NO_SQUARE,
        Some(square) => square,
    }
}

// What a caller says of a position.
pub fn taken(stated: State) -> position::State
    ensures { TakesState stated result }
{
    let rights = Rights {
        white_short: stated.white_short,
        white_long: stated.white_long,
        black_short: stated.black_short,
        black_long: stated.black_long,
    };
    let passant = passant(stated.passant);
    position::State {
        side: stated.side,
        rights,
        passant,
        halfmoves: stated.halfmoves,
        moves: stated.moves,
    }
}

// What is told to a caller.
pub fn given(state: position::State) -> State
    ensures { TellsState state result }
{
    let rights = state.rights;
    let passant = state.passant;
    State {
        side: state.side,
        white_short: rights.white_short,
        white_long: rights.white_long,
        black_short: rights.black_short,
        black_long: rights.black_long,
        passant: number(passant),
        halfmoves: state.halfmoves,
        moves: state.moves,
    }
}
