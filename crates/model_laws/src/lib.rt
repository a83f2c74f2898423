// Theorems on the definitions of crate model: see proofs/. There is no code here.
#![tactic(auto)]
