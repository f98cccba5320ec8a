// laws of stages and of the verdict, in proofs/
#![tactic(auto)]
