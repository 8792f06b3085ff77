// The codes of more than 8 bits, found among the bits that wait.
#![tactic(auto)]

pub mod codes;
pub mod symbol;
