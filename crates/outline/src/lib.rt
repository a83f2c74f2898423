// What an outline is: see specs/, with laws and the worked one in proofs/. There is no code here.
#![tactic(auto)]
