// The representations of header blocks, written.
#![tactic(auto)]

pub mod write;
