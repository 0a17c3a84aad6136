// The lines of a printout, written into the caller's buffer.
#![tactic(auto)]

pub mod bounds;
pub mod line;
pub mod printing;
mod wording;
