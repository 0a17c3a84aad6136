// The player: a whole tape into a whole printout.
#![tactic(auto)]

mod asking;
mod ending;
pub mod play;
mod printing;
mod refusing;
mod turn;
