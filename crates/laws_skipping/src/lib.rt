// laws of the triggers that are passed over: when no term of a stage can make a row cyclic in specs/, the laws in proofs/
#![tactic(auto)]
