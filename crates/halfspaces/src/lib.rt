// Planes, and the patches that have corners on just the sides that are wanted.
#![tactic(auto)]

pub mod held;
pub mod planes;
