// The end statements on one page: specs/Demands.antt. There is no code here.
#![tactic(auto)]
