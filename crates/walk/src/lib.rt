// The walk of the tree of planes, front to back.
#![tactic(auto)]

pub mod order;
