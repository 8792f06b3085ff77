// Bytes copied from slice to slice, by words.
#![tactic(auto)]

pub mod copy;
