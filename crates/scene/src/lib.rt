// Questions 4, 6 and 7 on a scene, each put to the whole of it.
#![tactic(auto)]

pub mod panels;
pub mod planes;
pub mod runs;
