// laws of the chase: how many facts and steps it can have, in proofs/
#![tactic(auto)]
