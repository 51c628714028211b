// The definitions (specs/) and the mathematics over them (proofs/). There is no code here.
#![tactic(auto)]
