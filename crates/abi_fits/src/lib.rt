// The doors for C and Rust to a trace, its double and the fitting step. Each gives 0, or a refusal and changes nothing.
#![tactic(auto)]

use abi_codes::Code;

pub mod fits;
pub mod traces;

// What every door here gives that does not refuse.
const GIVEN: Code = abi_codes::GIVEN;
