// demand 3 over the definitions, in proofs/
#![tactic(auto)]
