// What the gateway tells of a header block offered to the decoder (docs/RECORDINGS.md, "gateway").
#![tactic(auto)]

pub mod block;
