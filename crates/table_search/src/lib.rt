// Searches of the header table in lent memory by index. Nothing is changed here.
#![tactic(auto)]

pub mod find;
