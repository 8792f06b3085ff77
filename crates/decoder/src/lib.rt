// The decoder's start. Its other calls are in crates of their own.
#![tactic(auto)]

pub mod start;
