// Entries put into the header table in lent memory, in place. Each change is one equation on the whole memory.
#![tactic(auto)]

pub mod insert;
