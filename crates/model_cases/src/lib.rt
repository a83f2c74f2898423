// More of the published Rust's answers, computed from the definitions of crate model: see proofs/. There is no code here.
#![tactic(auto)]
