// Strings and literals of a block, each written in the host's list form as it is read.
#![tactic(auto)]

pub mod literal;
