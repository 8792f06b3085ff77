// What was told and counted of a recording so far (docs/RECORDINGS.md, "gateway"), and its end: blocks that still wait, where each machine
// stands, and how many of each kind there were.
#![tactic(auto)]

pub mod broken_off;
pub mod finish;
pub mod log;
pub mod tally;
pub mod waiting;
