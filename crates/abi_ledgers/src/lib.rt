// The doors for C and Rust to the ledger of a collection. Each gives 0, or a refusal and changes nothing.
#![tactic(auto)]

pub mod ledgers;
