// The frames of a tape, and the reader that takes one after the other.
#![tactic(auto)]

pub mod frame;
mod layout;
pub mod reader;
