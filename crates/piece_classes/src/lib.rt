// What pieces and bodies are, and theorems on their counts: see specs/ and proofs/. There is no code here.
#![tactic(auto)]
