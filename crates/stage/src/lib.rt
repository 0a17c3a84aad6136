// What a stage is, by its meaning alone, and the chain of one stage on another.
#![tactic(auto)]

pub mod chain;
pub mod measure;
pub mod not_taken;
pub mod out_of_limits;
pub mod single;
pub mod stage;
