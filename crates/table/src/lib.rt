// Entries taken out of the header table in lent memory, in place, and a fresh state. Each change is one equation on the whole memory.
#![tactic(auto)]

pub mod remove;
pub mod start;
