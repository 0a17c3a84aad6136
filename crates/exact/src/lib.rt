// Exact numbers: division that rounds down or up, the greater and the lesser of two, fractions, arguments and uncertainty sets.
#![tactic(auto)]

pub mod argument;
pub mod divisor;
pub mod fraction;
pub mod order;
pub mod product;
pub mod set;
