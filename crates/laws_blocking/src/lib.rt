// laws of the blocking test over rows, in proofs/
#![tactic(auto)]
