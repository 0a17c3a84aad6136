// Why a call was refused.
#![tactic(auto)]

pub mod conflict;
pub mod refusal;
