// Packed strings unpacked: the bits that wait, and the bytes that the codes in them say.
#![tactic(auto)]

pub mod bits;
mod padding;
pub mod unpack;
