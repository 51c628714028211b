// The scene's byte format.
#![tactic(auto)]

pub mod layout;
pub mod patch;
pub mod records;
pub mod scene;
