// Demand 3: the statement is specs/Demand3.antt, the theorem proofs/Theorem.antt. There is no code here.
#![tactic(auto)]
