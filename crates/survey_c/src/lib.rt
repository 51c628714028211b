// The calls of `survey` for a console in C, under the names and with the arguments of include/ring.h: a slice is a pointer and how many elements it has.
// Each has the clauses of the function that it calls.
#![tactic(auto)]

pub mod map;
pub mod metres;
pub mod units;
