// The image of an accepted mesh, read back, is that mesh: see specs/ and proofs/. There is no code here.
#![tactic(auto)]
