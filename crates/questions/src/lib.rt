// The three questions about the lines through what the places hold.
#![tactic(auto)]

mod apart;
pub mod ask;
mod conflicts;
mod level;
mod naming;
mod triples;
pub mod verdict;
