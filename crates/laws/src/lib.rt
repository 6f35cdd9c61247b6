// The laws of the definitions in spec, for the proofs of the crates above it.
#![tactic(auto)]
