// The lines of a transcript in words (docs/RECORDINGS.md, "gateway"): those of calls, and those of hours.
#![tactic(auto)]

pub mod hours;
pub mod lines;
