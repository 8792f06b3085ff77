// An insert that the decoder has read, done on its table.
#![tactic(auto)]

pub mod insert;
