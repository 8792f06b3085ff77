// Text read line by line and written in large pieces, over `std`: what the programs over recordings share.
#![tactic(auto)]

pub mod files;
pub mod incomplete;
pub mod lines;
pub mod print;
pub mod source;
pub mod stream;
