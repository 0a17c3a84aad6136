// The laws of whole numbers that the proofs of every other crate cite. They stand in proofs/: `Ring` has sums, products and
// orders, `Normal` decides polynomial identities and adds up inequalities. No code, and so no contract, is in this crate.
#![tactic(auto)]
