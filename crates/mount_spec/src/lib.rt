// The specification of MOUNT version 3: definitions in specs/, worked examples in proofs/. There is no code here.
#![tactic(auto)]
