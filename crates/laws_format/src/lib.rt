// laws of reading and writing, in proofs/
#![tactic(auto)]
