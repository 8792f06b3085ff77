// The decoder's read call: one management instruction, done on the table.
#![tactic(auto)]

pub mod read;
