// The host's field list, written, and how many bytes that takes.
#![tactic(auto)]

pub mod write;
