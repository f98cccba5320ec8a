// stores of two tables: the definitions in specs/, the theorems about them in proofs/
#![tactic(auto)]
