// What two measurements at different arguments allow of a line's slope or value, and the narrowest that any two allow.
#![tactic(auto)]

pub mod best;
pub mod candidate;
pub mod extremes;
pub mod narrowest;
pub mod quantity;
pub mod rising;
