// Hours that fall (docs/RECORDINGS.md, "Hours"): against the reports of the decoder's table, and against where a machine stands.
#![tactic(auto)]

pub mod falls;
pub mod standing;
