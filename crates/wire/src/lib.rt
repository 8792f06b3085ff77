// What the draft writes with prefix integers: strings and names, read.
#![tactic(auto)]

pub mod name;
pub mod text;
