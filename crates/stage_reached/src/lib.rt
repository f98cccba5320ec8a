// a reached stage is as the making of the next one asks, in proofs/
#![tactic(auto)]
