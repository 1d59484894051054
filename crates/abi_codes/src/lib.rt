// What a door for C gives back: 0, or a refusal's number with the square that it names; and a flag as a number that C lends.
#![tactic(auto)]

ghost use Rattle.abi_codes.specs.Promises.{GivesCode, GivesFlag};

use refusal::Refusal;

// What comes back: 0, or the number of the refusal, and the square that it names.
#[repr(C)]
#[derive(Clone, Copy)]
pub struct Code {
    pub number: u8,
    pub square: u8,
}

// Where no square is named: no square has this number, and 0 is a1.
pub const NO_SQUARE: u8 = 255;

// What a call gives that is not refused.
pub const GIVEN: Code = Code {
    number: 0,
    square: NO_SQUARE,
};

pub fn refused(refusal: Refusal) -> Code
    ensures { GivesCode refusal result }
{
    Code {
        number: refusal.number(),
        square: refusal.square().unwrap_or(NO_SQUARE),
    }
}

// Whether something is so, as it stands among numbers that are lent.
pub fn flag(holds: bool) -> u64
    ensures { GivesFlag holds result }
{
    if holds { 1 } else { 0 }
}
