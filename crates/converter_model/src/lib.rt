// Definitions and theorems about rule sets in the bytes of another version (specs/, proofs/). No code.
#![tactic(auto)]
