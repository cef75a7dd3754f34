// The rules of document 01 stand in specs/, and what is claimed of them in proofs/. There is no code here.
#![tactic(auto)]
