// the stages over rows are those over trees, in proofs/
#![tactic(auto)]
