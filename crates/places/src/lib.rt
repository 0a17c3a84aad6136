// The 64 places of a register.
#![tactic(auto)]

pub mod place;
pub mod places;
pub mod sample;
pub mod status;
