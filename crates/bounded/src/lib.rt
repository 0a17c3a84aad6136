// A stage whose error is bounded by an absolute and a relative limit.
#![tactic(auto)]

pub mod bounded;
