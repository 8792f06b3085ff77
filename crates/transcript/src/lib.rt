// What the gateway tells of a recording (docs/RECORDINGS.md, "gateway"), line by line as the calls are made.
#![tactic(auto)]

pub mod calls;
