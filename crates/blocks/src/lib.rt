// Header blocks: their representations read, and whole blocks checked.
#![tactic(auto)]

pub mod read;
