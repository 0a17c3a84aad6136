// Rational numbers and straight lines as the specifications of every other crate speak of them: specs/ says what they are,
// proofs/ has the laws of their order. No code, and so no contract, is in this crate.
#![tactic(auto)]
