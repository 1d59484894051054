// A bitboard, as bitboard.rs has it: count, scan, shift, one square, and the squares one after the other.
#![tactic(auto)]

ghost use Rattle.bits.specs.Promises.{Counts, Scans, FromSquare, Gets, Sets, Resets, Toggles, Shifts, Nexts};

use refusal::Refusal;

pub mod inner;

// How many squares stand in b.
pub fn count(b: u64) -> u32
    ensures { Counts b result }
{
    u64::count_ones(b)
}

// The lowest square of b; 64 where it is empty.
pub fn scan(b: u64) -> u32
    ensures { Scans b result }
{
    u64::trailing_zeros(b)
}

// Up by s squares, or down where s is below zero; beyond 63 either way: SHAPE.
pub fn shift(b: u64, s: i8) -> Result<u64, Refusal>
    ensures { Shifts b s result }
{
    if s >= 0 {
        let n = s as u64;
        if n > chess::square::FARTHEST {
            return Err(Refusal::Shape);
        }
        Ok(b << n)
    } else {
        // -1 - s never overflows, and is one less than the way down
        let n = (-1 - s) as u64;
        if n > 62 {
            return Err(Refusal::Shape);
        }
        Ok(b >> (n + 1))
    }
}

// A square above 63 is SQUARE, here and in the four below.
pub fn from_square(square: u8) -> Result<u64, Refusal>
    ensures { FromSquare square result }
{
    if square > chess::square::LAST {
        return Err(Refusal::Square);
    }
    Ok(1 << square)
}

// Whether a square stands there.
pub fn get(b: u64, square: u8) -> Result<bool, Refusal>
    ensures { Gets b square result }
{
    if square > chess::square::LAST {
        return Err(Refusal::Square);
    }
    Ok((b >> square) & 1 != 0)
}

pub fn set(b: u64, square: u8) -> Result<u64, Refusal>
    ensures { Sets b square result }
{
    if square > chess::square::LAST {
        return Err(Refusal::Square);
    }
    Ok(b | 1 << square)
}

pub fn toggle(b: u64, square: u8) -> Result<u64, Refusal>
    ensures { Toggles b square result }
{
    if square > chess::square::LAST {
        return Err(Refusal::Square);
    }
    Ok(b ^ 1 << square)
}

pub fn reset(b: u64, square: u8) -> Result<u64, Refusal>
    ensures { Resets b square result }
{
    if square > chess::square::LAST {
        return Err(Refusal::Square);
    }
    Ok(b & !(1 << square))
}

// The lowest square and the rest, or none.
pub fn next(b: u64) -> Option<(u8, u64)>
    ensures { Nexts b result }
{
    if b == 0 {
        return None;
    }
    let s = u64::trailing_zeros(b);
    Some((s as u8, b & !(1 << s)))
}
