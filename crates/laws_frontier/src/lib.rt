// laws of triggers that their frontier alone blocks, in proofs/
#![tactic(auto)]
