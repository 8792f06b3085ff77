// The first pass over a header block: what it refuses, what it waits for, or how long its fields are.
#![tactic(auto)]

pub mod measure;
