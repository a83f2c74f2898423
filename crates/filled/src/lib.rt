// What filled blocks hold: see proofs/. There is no code here.
#![tactic(auto)]
