// Straight lines through uncertainty sets: specs/ says what it means that a line meets a measurement, that measurements
// conflict, and what the least and the greatest slope and value are; proofs/ has the theorems about them.
#![tactic(auto)]
