// The doors to a line's coefficient by the table of expected scores, exported for C and Rust: each calls the function of its name in `abi_coefficients`,
// and promises what that promises.
#![tactic(auto)]

ghost use Rattle.abi_coefficients.specs.Promises.{WeighsByTable};

use abi_codes::Code;

#[unsafe(no_mangle)]
pub extern "C" fn chess_table_coefficient(
    value: f64,
    half: u8,
    k: f64,
    lines: u64,
    expected: &mut f64,
    coefficient: &mut f64,
) -> Code
    ensures { WeighsByTable value half k lines expected.old coefficient.old result expected.new coefficient.new }
{
    abi_coefficients::chess_table_coefficient(value, half, k, lines, expected, coefficient)
}
