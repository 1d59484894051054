// The square weights of `score_pst::PST` in the form in which they are added.
#![tactic(auto)]

pub mod inner;
