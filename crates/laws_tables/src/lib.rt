// laws of the caller's tables and of the text, in proofs/
#![tactic(auto)]
