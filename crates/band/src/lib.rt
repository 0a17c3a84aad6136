// A table of rows, each with the ends of the readings that belong to it.
#![tactic(auto)]

pub mod band;
pub mod fault;
pub mod row;
