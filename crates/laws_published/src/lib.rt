// the computed notions are the published ones, in proofs/
#![tactic(auto)]
