// Bytes, numbers and parts at places of a lent slice. Everything that reads or changes memory goes through these.
#![tactic(auto)]

pub mod compare;
pub mod copy;
pub mod number;
