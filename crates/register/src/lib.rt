// The register of a channel: its places, the serials and the tallies, kept as the bench book has them.
#![tactic(auto)]

pub mod register;
