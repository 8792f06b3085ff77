// Marks of streams, in words of 64 bits: one bit for each stream, the lowest stream in the lowest bit.
#![tactic(auto)]

pub mod count;
pub mod mark;
