// A display that shows whole steps.
#![tactic(auto)]

pub mod step;
