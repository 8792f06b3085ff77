// The second pass over a header block: its fields written in the host's list form.
#![tactic(auto)]

pub mod write;
