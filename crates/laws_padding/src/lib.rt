// Padding: which bytes of a call it is, in specs/, and that no outcome depends on them, in proofs/. There is no code here.
#![tactic(auto)]
