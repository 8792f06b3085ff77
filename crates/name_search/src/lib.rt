// Entries of the header table by name, and by name and value, among those that are not under deletion. Nothing is changed here.
#![tactic(auto)]

pub mod names;
