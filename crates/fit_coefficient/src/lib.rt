// A line's coefficient in the gradient by the table of expected scores: whole numbers and IEEE 754's operations alone, no power of ten, and so the
// same bits on every machine.
#![tactic(auto)]

ghost use Rattle.std.specs.Prelude.{◌≡◌, ◌≤◌, not, T, pos, neg_ℤ, is_nan};
ghost use Rattle.fit_coefficient.specs.Coefficient.{expected_points, points_at, coefficient_of};
ghost use Rattle.fit_coefficient.specs.Promises.{WeighsLine};

use refusal::Refusal;

// The natural logarithm of 10, the double nearest to it.
const LN_10: f64 = 2.302585092994046;

// What a line lets expect, in points, and the factor of its part of the gradient.
#[derive(Clone, Copy)]
pub struct Share {
    pub expected: f64,
    pub coefficient: f64,
}

fn below_zero(whole: u64) -> i16
    requires { whole ≤ 1601 }
    ensures { result ≡ neg_ℤ (pos whole) }
{
    0 - (whole as i16)
}

// A score that is no NaN, rounded down to a whole number; the table's end where it lies outside.
fn rounded_down(score: f64) -> i16
    requires { T (not (is_nan score)) }
    ensures { expected_points result ≡ points_at score }
{
    if score >= 1600.0 {
        return 1600;
    }
    if score < -1600.0 {
        return -1600;
    }
    if score >= 0.0 {
        return std::num::truncating_f64_to_u64(score) as i16;
    }
    let whole = std::num::truncating_f64_to_u64(-score);
    if std::num::nearest_u64_to_f64(whole) < -score {
        return below_zero(whole + 1);
    }
    below_zero(whole)
}

fn points(score: f64) -> f64
    ensures { result ≡ points_at score }
{
    if score != score {
        return score;
    }
    score_expected::expected(rounded_down(score)) as f64 / 1000000.0
}

// `compute_gradient`'s own operations, in its order.
fn coefficient(s: f64, half: u8, k: f64, lines: u64) -> f64
    ensures { result ≡ coefficient_of s half k lines }
{
    let error = half as f64 / 2.0 - s;
    let slope = s * (1.0 - s) * k * LN_10 / 400.0;
    -2.0 * error * slope / std::num::nearest_u64_to_f64(lines)
}

// By a line's double, its half points, K and how many lines there are: SHAPE (no lines), RESULT.
pub fn weigh(value: f64, half: u8, k: f64, lines: u64) -> Result<Share, Refusal>
    ensures { WeighsLine value half k lines result }
{
    if lines == 0 {
        return Err(Refusal::Shape);
    }
    if half > 2 {
        return Err(Refusal::Result);
    }
    let expected = points(k * value);
    Ok(Share {
        expected,
        coefficient: coefficient(expected, half, k, lines),
    })
}
