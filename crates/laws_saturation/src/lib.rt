// laws of sets of rows closed under the Datalog rules, and of rows added to a set in some order, in proofs/
#![tactic(auto)]
