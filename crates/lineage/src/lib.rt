// Theorems on a mesh of triangles through any history of calls: see specs/ and proofs/. There is no code here.
#![tactic(auto)]
