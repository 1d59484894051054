// The door to a line's coefficient by the table of expected scores.
#![tactic(auto)]

ghost use Rattle.abi_coefficients.specs.Promises.{WeighsByTable};

use abi_codes::{Code, GIVEN, refused};

// What a line lets expect, in points, and its coefficient, by its double, its half points, K and how many lines there are: SHAPE (no lines), RESULT.
pub fn chess_table_coefficient(
    value: f64,
    half: u8,
    k: f64,
    lines: u64,
    expected: &mut f64,
    coefficient: &mut f64,
) -> Code
    ensures { WeighsByTable value half k lines expected.old coefficient.old result expected.new coefficient.new }
{
    let answer = fit_coefficient::weigh(value, half, k, lines);
    match answer {
        Err(refusal) => refused(refusal),
        Ok(share) => {
            *expected = share.expected;
            *coefficient = share.coefficient;
            GIVEN
        }
    }
}
