// Total, and no door: numbers of 64 bits have room for every step.
ghost use Rattle.std.specs.Prelude.{◌≡◌, ◌≤◌, pos, nat_abs, ◌-ℤ◌, ◌*ℤ◌};
ghost use Rattle.score_taper.specs.Parts.{in16};
ghost use Rattle.score_taper.specs.Answers.{part, divided_of, brought_of, joined_of, points, Scores};

use crate::{Side, TEMPO};

// The bounds of 16 bits; a sum of material or mobility is never below zero.
const SMALLEST: i64 = -32768;

const LARGEST: i64 = 32767;

const LARGEST_SUM: u32 = 32767;

// Whether a number is one of 16 bits.
fn short(z: i64) -> bool
    ensures { result ≡ in16 z }
{
    if z < SMALLEST {
        return false;
    }
    if LARGEST < z {
        return false;
    }
    true
}

fn less(a: u32, b: u32) -> i64
    ensures { (result ≡ pos a -ℤ pos b) × (nat_abs result ≤ 4294967295) }
{
    a as i64 - b as i64
}

fn wide(z: i32) -> i64
    ensures { (result ≡ z) × (nat_abs result ≤ 2147483648) }
{
    z as i64
}

fn times(y: i64, n: i64) -> i64
    requires { (nat_abs y ≤ 2147483648) × (nat_abs n ≤ 4294967295) }
    ensures { result ≡ y *ℤ n }
{
    y * n
}

// A weight times a difference of counts.
fn product(y: i32, a: u32, b: u32) -> i64
    ensures { result ≡ y *ℤ (pos a -ℤ pos b) }
{
    times(wide(y), less(a, b))
}

// The two products of a side, added and divided by -30, toward zero; none where a step leaves 16 bits, here and in the three below.
fn divided(opening: i64, ending: i64) -> Option<i64>
    ensures { part result ≡ divided_of opening ending }
{
    if !short(opening) {
        return None;
    }
    if !short(ending) {
        return None;
    }
    let sum = opening + ending;
    if !short(sum) {
        return None;
    }
    Some(sum / -30)
}

// A side's part, where x pieces stand.
fn brought(side: Side, x: u32) -> Option<i64>
    ensures { part result ≡ brought_of side x }
{
    if LARGEST_SUM < side.material {
        return None;
    }
    if LARGEST_SUM < side.mobility {
        return None;
    }
    let opening = product(side.opening, 2, x);
    let ending = product(side.ending, x, 32);
    divided(opening, ending)
}

// The differences of square weights, material and mobility added from left to right, then the tempo.
fn joined(weights: i64, material: i64, mobility: i64) -> Option<i16>
    requires { (nat_abs weights ≤ 4294967295) × (nat_abs material ≤ 4294967295) × (nat_abs mobility ≤ 4294967295) }
    ensures { points result ≡ joined_of weights material mobility }
{
    let first = weights + material;
    if !short(first) {
        return None;
    }
    let second = first + mobility;
    if !short(second) {
        return None;
    }
    let total = second + TEMPO as i64;
    if !short(total) {
        return None;
    }
    Some(total as i16)
}

// The score of own less other, where x pieces stand; SCORE where 01 says so.
pub fn score(own: Side, other: Side, x: u32) -> Option<i16>
    ensures { Scores own other x result }
{
    let a = brought(own, x);
    let Some(mine) = a else {
        return None;
    };
    let b = brought(other, x);
    let Some(theirs) = b else {
        return None;
    };
    let material = less(own.material, other.material);
    let mobility = less(own.mobility / 10, other.mobility / 10);
    joined(mine - theirs, material, mobility)
}
