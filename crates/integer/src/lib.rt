// The laws of whole numbers (specs/, proofs/). There is no code here.
#![tactic(auto)]
