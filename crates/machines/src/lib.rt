// The machines whose hours were told (docs/RECORDINGS.md, "Hours"), each with where it stands, and the reports of the decoder's table.
#![tactic(auto)]

pub mod keep;
pub mod name;
