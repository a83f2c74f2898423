// A history told by what the C functions promise is a history of the definitions: see specs/ and proofs/. There is no code here.
#![tactic(auto)]
