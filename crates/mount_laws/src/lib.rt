// The laws of the specification of MOUNT, in proofs/. There is no code here.
#![tactic(auto)]
