// What a search of the static table finds, and what it goes by: hashes of names, and the words at the ends of names and values.
#![tactic(auto)]

pub mod ends;
pub mod hashes;
