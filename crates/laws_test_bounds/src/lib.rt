// how many facts a blocking test can have at most: the definition in specs/, that no test of a stage's trigger has more in proofs/
#![tactic(auto)]
