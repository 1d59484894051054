// The same on any bitboards: total, and no door.
ghost use Rattle.std.specs.Prelude.{◌≡◌, ◌*◌, ◌≤◌};
ghost use Rattle.chess.specs.Values.{value_of};
ghost use Rattle.score_material.specs.Promises.{CountsKind, SideWorth, Pairs};

use crate::{BISHOP_PAIR, PIECE_VALUES};
use attack::inner::standing;
use chess::inner::{index, white};
use chess::kind::{BISHOP, KINDS};

// How many pieces of a kind and a colour there are.
pub fn number(bitboards: &[u64], kind: u8, color: u8) -> u32
    ensures { CountsKind bitboards.now kind color result }
{
    bits::count(standing(bitboards, kind, color))
}

// So many pieces of a kind, in worth.
fn value(n: u32, kind: u8) -> u32
    requires { n ≤ 64 }
    ensures { (result ≡ n * value_of kind) × (result ≤ 640000) }
{
    n * PIECE_VALUES[index(white(kind))]
}

// What a colour's pieces are worth, the pair of bishops not counted.
pub fn material(bitboards: &[u64], color: u8) -> u32
    ensures { SideWorth bitboards.now color result }
{
    let mut sum: u32 = 0;
    for kind in 0..KINDS {
        let n = number(bitboards, kind, color);
        sum += value(n, kind);
    }
    sum
}

// The bonus for two bishops or more.
pub fn pair(bitboards: &[u64], color: u8) -> u32
    ensures { Pairs bitboards.now color result }
{
    if number(bitboards, BISHOP, color) < 2 {
        return 0;
    }
    BISHOP_PAIR
}
