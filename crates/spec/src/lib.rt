// The specification: definitions in specs/, worked examples in proofs/. Its laws stand in the crate `laws`. There is no code here.
#![tactic(auto)]
