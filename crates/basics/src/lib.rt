// The words that proofs are written in: proofs/Basics.antt. There is no code here.
#![tactic(auto)]
