// A history told by what the entries promise is a history of the definitions: see specs/ and proofs/. There is no code here.
#![tactic(auto)]
