// Strings as most are: plain, with a length of one byte.
#![tactic(auto)]

pub mod short;
