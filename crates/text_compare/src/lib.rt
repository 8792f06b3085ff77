// Bytes compared with text in the table, by words.
#![tactic(auto)]

pub mod text;
