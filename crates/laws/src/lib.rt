// laws of the definitions, in proofs/
#![tactic(auto)]
