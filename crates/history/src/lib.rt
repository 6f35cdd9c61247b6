// Demand 3: the statement in specs/, its proof in proofs/. There is no code here.
#![tactic(auto)]
