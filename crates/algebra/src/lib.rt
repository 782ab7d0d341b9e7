#![tactic(auto)]

// Mathematics with no code to run: see specs/ and proofs/.
