// definitions and laws of assignments in order, and of triggers over rows of facts, in specs/ and proofs/
#![tactic(auto)]
