// Definitions over rows of numbers, in specs/; in proofs/, that they encode those of model.
#![tactic(auto)]
