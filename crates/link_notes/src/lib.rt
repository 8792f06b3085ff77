// Notes on the blocks of a link: their sums, and which of them wait.
#![tactic(auto)]

pub mod notes;
pub mod sums;
mod waiting;
mod written;
