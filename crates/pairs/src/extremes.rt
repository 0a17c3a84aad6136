use crate::candidate::Candidate;

// The candidates for the least and for the greatest of a quantity.
#[derive(Clone, Copy)]
pub struct Extremes {
    pub least: Candidate,
    pub greatest: Candidate,
}
