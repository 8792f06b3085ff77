// Strings and names, written.
#![tactic(auto)]

pub mod write;
