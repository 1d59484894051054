// The doors for C and Rust to a position and a line: numbers, slices and small records. Each gives 0, or a refusal and changes nothing.
#![tactic(auto)]

use abi_codes::Code;

pub mod attacks;
pub mod exchanges;
pub mod lines;
pub mod scores;

// What every door here gives that does not refuse.
const GIVEN: Code = abi_codes::GIVEN;
