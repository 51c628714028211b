// Laws alone: scenes and calls at the limits of the questions, tried on the definitions by computing. They stand apart from the definitions since no other
// crate needs them and computing them takes as long as all of the mathematics.
#![tactic(auto)]
