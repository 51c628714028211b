// The laws of sets of columns, their segments and rows (specs/, proofs/). There is no code here.
#![tactic(auto)]
